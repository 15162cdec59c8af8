ghost use Rattle.std.specs.Prelude.{◌≡◌, ◌↔◌, [], drop, IfOk, IfErr, IsTrue, is_err};
ghost use Rattle.std.specs.Vec.Iter.{into_iter_items};
ghost use Rattle.std.specs.IoError.{error_kind};

use ap_symbol::Memory;
use std::alloc::Global;
use std::env::Args;
use std::io::{self, ErrorKind};

fn gather(alloc: Global, arguments: Args) -> Result<Vec<String>, Memory>
    ensures { IfOk result (λ words. words.items ≡ into_iter_items arguments) }
{
    let mut words = Vec::new(alloc);
    for word in arguments {
        words.push(word)?;
    }
    Ok(words)
}

/// The words of a command: all arguments but the first, which is the program's own name. Where they
/// could not be read, there are none: so where one is not UTF-8. Only want of memory fails it.
pub fn words_of(alloc: Global, arguments: io::Result<Args>) -> Result<Vec<String>, Memory>
    ensures words { IfOk arguments (λ all. IfOk result
        (λ words. words.items ≡ drop 1 (into_iter_items all))) }
    ensures none { IfErr arguments (λ error. IfOk result (λ words. words.items ≡ [])) }
    ensures memory { IfErr arguments
        (λ error. IsTrue (is_err result) ↔ error_kind error ≡ ErrorKind.OutOfMemory) }
{
    match arguments {
        Ok(arguments) => {
            let mut rest = arguments;
            let _name = rest.next();
            gather(alloc, rest)
        }
        Err(error) => {
            if error.kind() == ErrorKind::OutOfMemory {
                return Err(Memory);
            }
            Ok(Vec::new(alloc))
        }
    }
}
