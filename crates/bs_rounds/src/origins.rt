// Whether two messages come from one place.
ghost use Rattle.std.specs.Prelude.{◌≡◌, ◌↔◌, IsTrue};

use bs_log::Origin;
use bs_tree::Path;

/// Whether two messages come from one place.
pub(crate) fn same_origin(a: &Origin, b: &Origin) -> bool
    ensures { IsTrue result ↔ (a.now ≡ b.now) }
{
    a.chare == b.chare && same_path(&a.path, &b.path) && a.index == b.index && a.depth == b.depth
}

fn same_path(a: &Path, b: &Path) -> bool
    ensures { IsTrue result ↔ (a.now ≡ b.now) }
{
    a.0.as_slice() == b.0.as_slice()
}
