//! What the program answers.
ghost use Rattle.std.specs.Prelude.{◌≡◌};
ghost use Rattle.fkv_renew.specs.Said as said;

use crate::complaints::Complaint;
use crate::renewals::{Refusal, renew_file};
use crate::saved::write_saved;
use crate::telling::Teller;
use crate::words::{Asked, WordFault, asked_of};
use fkv_base::Fault;
use fkv_files::StorePlaces;
use fkv_texts::write_refusal;
use std::alloc::Global;
use std::io::{self, ErrorKind, Write};

/// The exit status of a run, and the text that it prints.
#[derive(Drop)]
pub(crate) struct Answer {
    pub(crate) status: u8,
    pub(crate) text: Vec<u8>,
}

/// The status of a renewal; of words or sizes that are refused; of a store or a file that is.
const DONE: u8 = 0;

const WORDS_REFUSED: u8 = 2;

const STORE_REFUSED: u8 = 3;

/// What a run answers to the words after the program's name.
pub(crate) fn answer_words<S: StorePlaces, E: Write>(
    places: &S,
    alloc: Global,
    words: &[&str],
    teller: &mut Teller<E>,
) -> io::Result<Answer>
    ensures { said.IfOk result (λ answer. said.IsAnswer (said.files_of S.Disk.honest S.Disk.seen S.Disk.may_leave (S.is_opened places.now) (S.is_named places.now)) (said.texts words.now) answer.status answer.text.items) }
{
    match asked_of(alloc, words) {
        Ok(asked) => answer_asked(places, alloc, asked, teller),
        Err(fault) => refuse_words(alloc, fault, teller),
    }
}

/// The answer to words that are refused.
pub(crate) fn refuse_words<E: Write>(
    alloc: Global,
    fault: WordFault,
    teller: &mut Teller<E>,
) -> io::Result<Answer>
    ensures memory { said.IfOk result (λ answer. ¬ (fault ≡ WordFault.Memory)) }
    ensures status { said.IfOk result (λ answer. answer.status ≡ 2) }
    ensures text { said.IfOk result (λ answer. answer.text.items ≡ said.line_of (said.codes "options")) }
{
    if let WordFault::Memory = fault {
        return Err(ErrorKind::OutOfMemory.into());
    }
    teller.complain(Complaint::Words);
    let mut text = Vec::new(alloc);
    text.extend_from_slice("options\n".as_bytes())?;
    Ok(Answer {
        status: WORDS_REFUSED,
        text,
    })
}

/// The answer to what is asked for.
fn answer_asked<S: StorePlaces, E: Write>(
    places: &S,
    alloc: Global,
    asked: Asked<'_>,
    teller: &mut Teller<E>,
) -> io::Result<Answer>
    ensures { said.IfOk result (λ answer. said.IsAnswerTo (said.files_of S.Disk.honest S.Disk.seen S.Disk.may_leave (S.is_opened places.now) (S.is_named places.now)) asked.entry answer.status answer.text.items) }
{
    match renew_file(places, alloc, asked, teller) {
        Ok(saved) => {
            let mut text = Vec::new(alloc);
            write_saved(&mut text, saved)?;
            Ok(Answer { status: DONE, text })
        }
        Err(refusal) => {
            teller.complain(Complaint::Renewal { asked, refusal });
            refuse(alloc, refusal)
        }
    }
}

/// The answer to a renewal that is refused.
fn refuse(alloc: Global, refusal: Refusal) -> io::Result<Answer>
    ensures status { said.IfOk result (λ answer. answer.status ≡ said.status_of_refusal refusal) }
    ensures text { said.IfOk result (λ answer. answer.text.items ≡ said.last_refusal (said.fault_of_refusal refusal)) }
{
    let (fault, status) = match refusal {
        Refusal::Sizes(_) => (Fault::BadShape, WORDS_REFUSED),
        Refusal::Unopened(fault) => (fault, STORE_REFUSED),
        Refusal::Unfit(fault) => (fault, STORE_REFUSED),
        Refusal::Old(_) | Refusal::First(_) | Refusal::New(_) => (Fault::Device, STORE_REFUSED),
        Refusal::Memory => return Err(ErrorKind::OutOfMemory.into()),
    };
    let mut text = Vec::new(alloc);
    write_refusal(&mut text, fault)?;
    Ok(Answer { status, text })
}
