// The function of tree files that a C program may call, as a static library.
#![tactic(auto)]

ghost use Rattle.std.specs.Prelude.{◌≡◌};
ghost use Rattle.treefiles.specs.Loading.{refusal};
ghost use Rattle.treefiles.specs.Reader.{read};

use treefiles::entry_points;

// The number of the refusal of a load into ample memory, or 0 where it is granted.
#[unsafe(no_mangle)]
pub extern "C" fn galdrisco_check_tree(file: &[u8]) -> u32
    ensures { result ≡ refusal (read file.now) }
{
    entry_points::galdrisco_check_tree(file)
}
