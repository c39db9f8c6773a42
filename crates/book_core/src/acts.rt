//! The list of acts that a book stands for.
ghost use Rattle.std.specs.Prelude.{◌≡◌, ◌++◌, [], OnOk, IfOk, map};
ghost use Rattle.std.specs.List.{cons_option};
ghost use Rattle.book_model.specs.Restoring.{acts_of_book, admission_of, decide_acts, forget_acts, row_acts};
ghost use Rattle.book_core.specs.Slots.{termini_in};
ghost use Rattle.book_model.specs.declared.act.Act.TheVariants as act;

use crate::book::Book;
use crate::copy;
use crate::slot::TerminusSlot;
use amqp_model::copy_state;
use book_model::{Act, Admission, Decision, Row};
use std::alloc::AllocError;

impl Book {
    /// The acts that the book stands for, from which [`Book::restore`] reads it back: its termini by number, then its
    /// rows by number, each with its Decide if it is decided and its Forget if it is forgotten.
    pub fn acts(&self) -> Result<Vec<Act>, AllocError>
        ensures { IfOk result (λ v. v.items ≡ acts_of_book self.now) }
    {
        let mut acts = Vec::new(self.tables.alloc);
        push_termini(&mut acts, &self.tables.termini.slots)?;
        for row in self.rows() {
            push_row(&mut acts, row)?;
        }
        Ok(acts)
    }
}

fn push_termini(acts: &mut Vec<Act>, slots: &[TerminusSlot]) -> Result<(), AllocError>
    ensures { OnOk result (acts.new.items ≡ acts.old.items ++ map act.Make (termini_in slots.now)) }
{
    for slot in slots {
        push_terminus(acts, slot)?;
    }
    Ok(())
}

fn push_terminus(acts: &mut Vec<Act>, slot: &TerminusSlot) -> Result<(), AllocError>
    ensures { OnOk result (acts.new.items ≡ acts.old.items ++ map act.Make (cons_option slot.now.terminus [])) }
{
    if let Some(terminus) = &slot.terminus {
        acts.push(Act::Make(copy::terminus(terminus)?))?;
    }
    Ok(())
}

/// Pushes what was done to a row.
fn push_row(acts: &mut Vec<Act>, row: &Row) -> Result<(), AllocError>
    ensures { OnOk result (acts.new.items ≡ acts.old.items ++ row_acts row.now) }
{
    acts.push(Act::Admit(copy::admission(row)?))?;
    push_decision(acts, row)?;
    if row.forgotten {
        acts.push(Act::Forget(row.number))?;
    }
    Ok(())
}

fn push_decision(acts: &mut Vec<Act>, row: &Row) -> Result<(), AllocError>
    ensures { OnOk result (acts.new.items ≡ acts.old.items ++ decide_acts row.now.number row.now.outcome) }
{
    if let Some(outcome) = &row.outcome {
        acts.push(Act::Decide(Decision {
            row: row.number,
            outcome: copy_state(outcome)?,
        }))?;
    }
    Ok(())
}
