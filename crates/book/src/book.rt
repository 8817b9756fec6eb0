// The book: its rules, and what holds of them.
ghost use Rattle.std.specs.Prelude.{◌≤◌, vec_len, vec_capacity};
ghost use Rattle.book.specs.Rules.{AllForward, AllSpeak};

use crate::rule::Rule;
use decision::Kind;
use std::marker::PhantomData;

mod edits;
pub mod source;

// How many rules a book holds at most.
pub const CAPACITY: usize = 64;

// At most 64 rules in order, over decisions of the kind K. Memory for all of them is had when the book is opened.
#[derive(Drop)]
pub struct Book<K: Kind> {
    rules: Vec<Rule>,
    kind: PhantomData<K>,
    ghost few: { vec_len rules ≤ 64 },
    ghost room: { 64 ≤ vec_capacity rules },
    ghost forward: { AllForward rules.items },
    ghost of_kind: { AllSpeak K.Kind.COUNT K.Kind.SILENT rules.items },
}
