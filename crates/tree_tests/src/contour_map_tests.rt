ghost use Rattle.contour_map.specs.Places.{AreEdgeValues};

use contour_map::{ContourMap, write_contours, write_contours_in_threads};
use std::alloc::Global;
use std::process::Abort;
use std::thread::Threads;

// Compares the contour map of a picture of this width and height, by the values of its edges, with some bytes. Made in
// threads it has the same.
fn assert_drawn(
    rt: &(impl Abort + Threads + Sync),
    alloc: Global,
    width: u32,
    height: u32,
    values: &[u64],
    drawn: &[u8],
)
    requires { AreEdgeValues width height values.now }
{
    let map = ContourMap::of(alloc, width, height, values).expect(rt, "ample memory");
    let bytes = write_contours(alloc, &map).expect(rt, "ample memory");
    assert_eq!(rt; bytes.as_slice(), drawn);
    let map = ContourMap::of_in_threads(rt, alloc, width, height, values).expect(
        rt,
        "ample memory",
    );
    let in_threads = write_contours_in_threads(rt, alloc, &map).expect(rt, "ample memory");
    assert_eq!(rt; in_threads.as_slice(), drawn);
}

#[test]
fn two_rows(rt: HostRuntime) {
    // Four pixels: the edges are 0 and 1, 0 and 2, 1 and 3, 2 and 3. The corner has the greatest of all four.
    let drawn = b"P5\n3 3\n9\n\x00\x05\x00\x03\x09\x09\x00\x04\x00";
    assert_drawn(&rt, rt.alloc(), 2, 2, &[5, 3, 9, 4], drawn);
    // Three columns: the pixels 0 to 2 have edges to the right and below, the pixels 3 and 4 to the right alone.
    let drawn = b"P5\n5 3\n7\n\x00\x01\x00\x03\x00\x02\x06\x04\x07\x05\x00\x06\x00\x07\x00";
    assert_drawn(&rt, rt.alloc(), 3, 2, &[1, 2, 3, 4, 5, 6, 7], drawn);
}

#[test]
fn one_pixel_row_or_column(rt: HostRuntime) {
    assert_drawn(&rt, rt.alloc(), 1, 1, &[], b"P5\n1 1\n1\n\x00");
    let row = b"P5\n5 1\n300\n\x00\x00\x00\x07\x00\x00\x01\x2c\x00\x00";
    assert_drawn(&rt, rt.alloc(), 3, 1, &[7, 300], row);
    let column = b"P5\n1 5\n2\n\x00\x02\x00\x00\x00";
    assert_drawn(&rt, rt.alloc(), 1, 3, &[2, 0], column);
    assert_drawn(&rt, rt.alloc(), 2, 1, &[0], b"P5\n3 1\n1\n\x00\x00\x00");
}

// Half of each value, rounded up; and just above and at the most that needs no scaling.
#[test]
fn scaled_values(rt: HostRuntime) {
    let halves =
        b"P5\n9 1\n65535\n\x00\x00\xff\xff\x00\x00\x00\x01\x00\x00\x80\x00\x00\x00\x00\x00\x00\x00";
    assert_drawn(&rt, rt.alloc(), 5, 1, &[131_070, 1, 65_536, 0], halves);
    let above = b"P5\n7 1\n65535\n\x00\x00\xff\xff\x00\x00\xff\xff\x00\x00\x00\x01\x00\x00";
    assert_drawn(&rt, rt.alloc(), 4, 1, &[65_536, 65_535, 1], above);
    let at = b"P5\n5 1\n65535\n\x00\x00\xff\xff\x00\x00\xff\xfe\x00\x00";
    assert_drawn(&rt, rt.alloc(), 3, 1, &[65_535, 65_534], at);
    let most = b"P5\n3 1\n65535\n\x00\x00\xff\xff\x00\x00";
    assert_drawn(&rt, rt.alloc(), 2, 1, &[18_446_744_073_709_551_615], most);
}
