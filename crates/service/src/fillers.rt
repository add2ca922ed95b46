// What fills memory before anything is laid down in it.
use terms::key::Term;

// A term of one byte, since none is empty. It is no constant: only a call makes a term, and constants have none.
pub(crate) fn some_term() -> Term {
    Term::new(b"-").unwrap()
}
