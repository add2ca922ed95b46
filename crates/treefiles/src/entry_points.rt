// What a C program may call: `treefiles_c` exports it.
ghost use Rattle.std.specs.Prelude.{◌≡◌};
ghost use Rattle.treefiles.specs.Loading.{refusal};
ghost use Rattle.treefiles.specs.Reader.{read};

use crate::load::check;

// The number of the refusal of a load into ample memory, or 0 where it is granted.
pub fn galdrisco_check_tree(file: &[u8]) -> u32
    ensures { result ≡ refusal (read file.now) }
{
    check(file).err().map_or(0, |fault| fault.reason.number())
}
