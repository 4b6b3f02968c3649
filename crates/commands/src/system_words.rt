//! The words of the command line.

ghost use Rattle.std.specs.Prelude.{◌≡◌, drop};

use std::alloc::{Alloc, Allocator};
use std::env::Env;
use std::{env, io};

/// The words of the command line without the program's own name.
pub fn words_of_system<R: Env + Alloc>(rt: &R) -> io::Result<Vec<String<R::A>, R::A>> {
    let words = env::args(rt)?.collect(rt.alloc())?;
    Ok(without_first(words))
}

/// The words after the first one.
fn without_first<T: Drop, A: Allocator>(mut words: Vec<T, A>) -> Vec<T, A>
    ensures { result.items ≡ drop 1 words.items }
{
    if !words.is_empty() {
        let _name = words.remove(0);
    }
    words
}
