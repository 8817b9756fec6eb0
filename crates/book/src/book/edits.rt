// The calls that make and change a book. Each answers and leaves what the plain list does.
ghost use Rattle.std.specs.Prelude.{◌≡◌, [], IfOk};
ghost use Rattle.book.specs.Books.{rules_of};
ghost use Rattle.book.specs.PlainList.{speaks, add, drop_rule, shift, recast};

use crate::book::{Book, CAPACITY};
use crate::refusal::Refusal;
use crate::rule::Rule;
use decision::Kind;
use std::alloc::{AllocError, Global};
use std::marker::PhantomData;

// Is this a decision of the kind other than the silent one?
fn speaks<K: Kind>(decision: u8) -> bool
    ensures { result ≡ speaks K.Kind.COUNT K.Kind.SILENT decision }
{
    decision < K::COUNT && decision != K::SILENT
}

impl<K: Kind> Book<K> {
    // An empty book.
    pub fn open(heap: Global) -> Result<Book<K>, AllocError>
        ensures { IfOk result (λ book. rules_of book ≡ []) }
    {
        let rules = Vec::with_capacity(heap, CAPACITY)?;
        Ok(Book {
            rules,
            kind: PhantomData,
        })
    }

    // Puts the rule behind the first `position` rules.
    #[tactic(auto, using(crate::proofs::Edited::all_inserted))]
    pub fn add(&mut self, position: usize, rule: Rule) -> Result<(), Refusal>
        ensures answer { result ≡ (add K.Kind.COUNT K.Kind.SILENT (rules_of self.old) position rule).answer }
        ensures rules { rules_of self.new ≡ (add K.Kind.COUNT K.Kind.SILENT (rules_of self.old) position rule).rules }
    {
        if self.rules.len() >= CAPACITY {
            return Err(Refusal::Full);
        }
        if position > self.rules.len() {
            return Err(Refusal::NoSuchPosition);
        }
        if rule.region.is_reversed() {
            return Err(Refusal::ReversedRange);
        }
        if !speaks::<K>(rule.decision) {
            return Err(Refusal::NotADecision);
        }
        // There is room, since memory for all rules was had at the opening; a Vec has no insert that asks for none.
        let _ = self.rules.insert(position, rule);
        Ok(())
    }

    // Takes the rule at the position out and answers it.
    pub fn drop_rule(&mut self, position: usize) -> Result<Rule, Refusal>
        ensures answer { result ≡ (drop_rule (rules_of self.old) position).answer }
        ensures rules { rules_of self.new ≡ (drop_rule (rules_of self.old) position).rules }
    {
        if position >= self.rules.len() {
            return Err(Refusal::NoSuchPosition);
        }
        Ok(self.rules.remove(position))
    }

    // Takes the rule at `from` out and puts it behind the first `to` of those left.
    #[tactic(auto, using(crate::proofs::Edited::all_inserted, crate::proofs::Edited::all_removed, crate::proofs::Edited::all_taken))]
    pub fn shift(&mut self, from: usize, to: usize) -> Result<(), Refusal>
        ensures answer { result ≡ (shift (rules_of self.old) from to).answer }
        ensures rules { rules_of self.new ≡ (shift (rules_of self.old) from to).rules }
    {
        if from >= self.rules.len() || to >= self.rules.len() {
            return Err(Refusal::NoSuchPosition);
        }
        let rule = self.rules.remove(from);
        // There is room: the rule has just left it.
        let _ = self.rules.insert(to, rule);
        Ok(())
    }

    // Changes the decision of the rule at the position.
    pub fn recast(&mut self, position: usize, decision: u8) -> Result<(), Refusal>
        ensures answer { result ≡ (recast K.Kind.COUNT K.Kind.SILENT (rules_of self.old) position decision).answer }
        ensures rules { rules_of self.new ≡ (recast K.Kind.COUNT K.Kind.SILENT (rules_of self.old) position decision).rules }
    {
        let Some(rule) = self.rules.get_mut(position) else {
            return Err(Refusal::NoSuchPosition);
        };
        if !speaks::<K>(decision) {
            return Err(Refusal::NotADecision);
        }
        rule.decision = decision;
        Ok(())
    }

    // Takes all rules out.
    pub fn clear(&mut self)
        ensures { rules_of self.new ≡ [] }
    {
        self.rules.clear();
    }

    // The rules, in order.
    pub fn rules(&self) -> &[Rule]
        ensures { result.now ≡ rules_of self.now }
    {
        &self.rules
    }
}
