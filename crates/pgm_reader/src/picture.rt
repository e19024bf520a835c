ghost use Rattle.std.specs.Prelude.{◌≡◌, ◌*◌, ◌<◌, ◌≤◌, slice_get, Some};
ghost use Rattle.pgm_reader.specs.Raster.{IsRaster};

use std::marker::Model;

/// A grey picture. Its samples are its pixels' greys in raster order: rows from the top, pixels from the left. It has
/// from 1 to 1,048,576 pixels, and each sample is at most the greatest value, which is from 1 to 65,535.
#[derive(Drop)]
pub struct Picture {
    width: u32,
    height: u32,
    max: u16,
    samples: Vec<u16>,
}

impl Model for Picture {
    ghost use Rattle.pgm_reader.specs.Raster.{Raster};

    ghost Value = { Raster };

    ghost use Rattle.pgm_reader.specs.PictureFields.{raster_of, IsRaster};

    ghost view = { raster_of };

    ghost invariant = { λ p. IsRaster (raster_of p) };
}

impl Picture {
    /// The picture with these samples.
    pub fn new(width: u32, height: u32, max: u16, samples: Vec<u16>) -> Picture
        requires { IsRaster (record { width = width; height = height; max = max; samples = samples.items }) }
        ensures { result ≡ record { width = width; height = height; max = max; samples = samples.items } }
    {
        Picture {
            width,
            height,
            max,
            samples,
        }
    }

    /// The number of pixels in a row.
    pub fn width(&self) -> u32
        ensures value { result ≡ self.now.width }
        ensures some { 1 ≤ result }
        ensures picture { IsRaster self.now }
    {
        self.width
    }

    /// The number of rows.
    pub fn height(&self) -> u32
        ensures value { result ≡ self.now.height }
        ensures some { 1 ≤ result }
        ensures picture { IsRaster self.now }
    {
        self.height
    }

    /// The greatest value that a sample may have.
    pub fn max(&self) -> u16
        ensures value { result ≡ self.now.max }
        ensures some { 1 ≤ result }
    {
        self.max
    }

    /// The sample of pixel `i` in raster order.
    pub fn sample(&self, i: u32) -> u16
        requires { i < self.now.width * self.now.height }
        ensures value { slice_get self.now.samples i ≡ Some result }
        ensures up_to_max { result ≤ self.now.max }
    {
        self.samples[i as usize]
    }
}
