// The values by which minima are compared.
ghost use Rattle.std.specs.Prelude.{◌≡◌, ◌<◌, length, slice_index};
ghost use Rattle.extinction.specs.Values.{attribute_values};

use attributes::Attributes;
use hg_base::Kind;

/// The attribute of this kind of node i.
pub(crate) fn value_by(kind: Kind, attributes: &Attributes, i: u32) -> u64
    requires { i < length attributes.now.areas }
    ensures { result ≡ slice_index (attribute_values kind attributes.now) i }
{
    match kind {
        Kind::Area => attributes.area(i),
        Kind::Volume => attributes.volume(i),
        Kind::Dynamics => attributes.dynamics(i),
    }
}
