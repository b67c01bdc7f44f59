ghost use Rattle.std.specs.Prelude.{◌≡◌, drop};

use std::alloc::AllocError;
use std::env;
use std::io::ErrorKind;
use std::rt::Env;

/// The words behind a program's name. Where one of them is no text they are of no form, as no words are. The only error is
/// want of memory.
pub fn words(rt: &(impl Env + AllocGlobal)) -> Result<Vec<String>, AllocError> {
    let alloc = rt.alloc();
    match env::args(rt) {
        Ok(args) => Ok(behind_name(args.collect(alloc)?)),
        Err(error) if error.kind() == ErrorKind::InvalidData => Ok(Vec::new(alloc)),
        Err(_) => Err(AllocError),
    }
}

/// All words but the first, in their order.
fn behind_name(mut args: Vec<String>) -> Vec<String>
    ensures { result.items ≡ drop 1 args.items }
{
    if !args.is_empty() {
        let _name = args.remove(0);
    }
    args
}
