ghost use Rattle.std.specs.Prelude.{◌≡◌, [], Result, Ok};
ghost use Rattle.std.specs.declared.convert.Infallible.{Infallible};
ghost use Rattle.source.specs.Steps.{next_of, rest_of};

use crate::{Item, TraceSource};
use std::convert::Infallible;

// A row of items that are all there already: those to come.
#[derive(Drop)]
pub struct Queue<'a> {
    row: &'a [Item],
}

impl<'a> Queue<'a> {
    pub fn new(row: &'a [Item]) -> Queue<'a>
        ensures all_to_come { result.row.now ≡ row.now }
    {
        Queue { row }
    }
}

impl TraceSource for Queue<'_> {
    type Fault = Infallible;

    ghost items = { λ q. q.row.now };

    ghost ending = { λ _. Ok tt };

    fn next(&mut self) -> Result<Option<Item>, Infallible>
        ensures answer { result ≡ next_of self.old.row.now (Ok tt) }
        ensures rest { self.new.row.now ≡ rest_of self.old.row.now }
        ensures ending { ◌≡◌ {A = Result (Unit {0}) Infallible} (Ok tt) (Ok tt) }
        ensures stays { self.old.row.now ≡ [] → self.new ≡ self.old }
    {
        let Some((item, rest)) = self.row.split_first() else {
            return Ok(None);
        };
        self.row = rest;
        Ok(Some(*item))
    }
}
