//! The acts of an event, as a list that can be written whatever is asked.
ghost use Rattle.std.specs.Prelude.{◌≡◌, ◌++◌, ◌∷◌, ◌≤◌, [], Some, OnOk, IfOk, List, length};
ghost use Rattle.book_model.specs.declared.act.Decision.{Decision as ADecision};
ghost use Rattle.book_model.specs.declared.row.RowNumber.{RowNumber as ARowNumber};
ghost use Rattle.book_model.specs.Book.{effects};
ghost use Rattle.journal_store.specs.Acting.{admission_acts, event_acts, settles, terminus_acts};
ghost use Rattle.journal_store.specs.Settling.{Names};
ghost use Rattle.journal_store.specs.declared.acting.TerminusAct.TheVariants as asked;

use crate::settling::Settling;
use book_core::Book;
use book_model::{Act, Admission, Decision, RowNumber, Terminus, TerminusNumber};
use std::alloc::{AllocError, Global};

/// What an event asks for a terminus.
#[derive(Debug, Drop)]
pub enum TerminusAct {
    /// It is made.
    Make(Terminus),
    /// It is dropped.
    Drop(TerminusNumber),
}

/// The act of an admission, if the book admits it.
pub(crate) fn admission_acts(
    alloc: Global,
    book: &Book,
    admission: Admission,
) -> Result<Vec<Act>, AllocError>
    ensures acts { IfOk result (λ acts. acts.items ≡ admission_acts book.now admission) }
    ensures tag { length admission.tag.items ≤ 32 }
{
    let _len = admission.tag.len();
    let mut acts = Vec::new(alloc);
    if book.admit_refusal(&admission).is_some() {
        drop(admission);
        return Ok(acts);
    }
    add(&mut acts, Act::Admit(admission))?;
    Ok(acts)
}

/// Appends an act.
pub(crate) fn add(acts: &mut Vec<Act>, act: Act) -> Result<(), AllocError>
    ensures { OnOk result (acts.new.items ≡ acts.old.items ++ act ∷ []) }
{
    if let Err(left) = acts.push(act) {
        drop(left);
        return Err(AllocError);
    }
    Ok(())
}

/// The acts of an event, from what it decides, the numbers of the rows that it forgets, and what it asks for a terminus.
pub(crate) fn event_acts(
    alloc: Global,
    book: &Book,
    decided: Vec<Decision>,
    forgotten: Vec<RowNumber>,
    terminus: Option<TerminusAct>,
) -> Result<Vec<Act>, AllocError>
    ensures { IfOk result (λ acts. acts.items ≡ event_acts book.now decided.items forgotten.items terminus) }
{
    let settling = Settling::new(alloc, decided, forgotten)?;
    let mut acts = settling.acts(alloc, book)?;
    add_terminus_act(&mut acts, &settling, book, terminus)?;
    Ok(acts)
}

/// Appends the act of a terminus, if nothing refuses it after what is settled.
fn add_terminus_act(
    acts: &mut Vec<Act>,
    settling: &Settling,
    book: &Book,
    terminus: Option<TerminusAct>,
) -> Result<(), AllocError>
    ensures { (ds : List ADecision) (numbers : List ARowNumber) → Names settling.now ds numbers
        → OnOk result (acts.new.items ≡ acts.old.items ++ terminus_acts (effects book.now (settles book.now ds numbers)) terminus) }
{
    match terminus {
        None => Ok(()),
        Some(TerminusAct::Make(terminus)) => add_make(acts, book, terminus),
        Some(TerminusAct::Drop(number)) => add_drop(acts, settling, book, number),
    }
}

/// Appends that a terminus is made, if nothing refuses it.
fn add_make(acts: &mut Vec<Act>, book: &Book, terminus: Terminus) -> Result<(), AllocError>
    ensures { (ds : List ADecision) (numbers : List ARowNumber)
        → OnOk result (acts.new.items ≡ acts.old.items ++ terminus_acts (effects book.now (settles book.now ds numbers)) (Some (asked.Make terminus))) }
{
    book.rows_rise();
    if book.make_refusal(&terminus).is_some() {
        drop(terminus);
        return Ok(());
    }
    add(acts, Act::Make(terminus))
}

/// Appends that a terminus is dropped, if it is let go after what is settled.
fn add_drop(
    acts: &mut Vec<Act>,
    settling: &Settling,
    book: &Book,
    number: TerminusNumber,
) -> Result<(), AllocError>
    ensures { (ds : List ADecision) (numbers : List ARowNumber) → Names settling.now ds numbers
        → OnOk result (acts.new.items ≡ acts.old.items ++ terminus_acts (effects book.now (settles book.now ds numbers)) (Some (asked.Drop number))) }
{
    book.rows_rise();
    if settling.lets_go(book, number) {
        add(acts, Act::Drop(number))
    } else {
        Ok(())
    }
}
