// The labels of a declaration.
ghost use Rattle.std.specs.Prelude.{◌≡◌, ◌<◌, length, slice_get, Some};

use decl::Label;

/// The label at a place.
pub(crate) fn label_at(labels: &[Label], k: usize) -> &Label
    requires { k < length labels.now }
    ensures { slice_get labels.now k ≡ Some result.now }
{
    &labels[k]
}
