//! The first position that has room: the calls of `omega_fit`.
use omega_calls::{Fault, is_colon, need, place, show_place, text};
use omega_fit::{FitIndex, first_fit};
use omega_model::{Bytes, Need};
use std::alloc::Global;

/// What is free, as an index and as a list.
#[derive(Debug, Drop)]
struct Both {
    index: FitIndex,
    list: Vec<Option<Need>>,
}

/// `built AMOUNT .. : STEP : ..` and `pushed AMOUNT .. : STEP : ..`: what the steps answer over an index
/// that is built at once or grows by one position after the other.
///
/// An amount is `-` where nothing has room. The step `first START NEED LEFT` answers the first position with
/// room, from `START` on and round the end, whose number modulo 4 isn't `LEFT`, or `-`; `push AMOUNT` and
/// `put POSITION AMOUNT` change what is free, and answer nothing. Where the index and a plain list answer
/// differently, both answers stand, with `!` between them.
pub(crate) fn answer(alloc: Global, call: &str, words: &[Bytes]) -> Result<String, Fault> {
    let mut steps = words.split(|word| is_colon(word));
    let amounts = steps.next().unwrap_or(&[]);
    let mut both = match call {
        "built" => built(alloc, amounts)?,
        "pushed" => pushed(alloc, amounts)?,
        _ => return Err(Fault::UnknownCall),
    };
    let mut answers = String::new(alloc);
    for step in steps {
        both.take(step, &mut answers)?;
    }
    Ok(answers)
}

/// An index that is built of all amounts.
fn built(alloc: Global, words: &[Bytes]) -> Result<Both, Fault> {
    let mut list = Vec::new(alloc);
    for word in words {
        list.push(free(word)?)?;
    }
    let index = FitIndex::build(alloc, list.as_slice())?;
    Ok(Both { index, list })
}

/// An index to which one amount after the other is pushed.
fn pushed(alloc: Global, words: &[Bytes]) -> Result<Both, Fault> {
    let mut both = Both {
        index: FitIndex::new(alloc),
        list: Vec::new(alloc),
    };
    for word in words {
        both.push(free(word)?)?;
    }
    Ok(both)
}

impl Both {
    /// Does a step, and appends its answer.
    fn take(&mut self, step: &[Bytes], answers: &mut String) -> Result<(), Fault> {
        let [call, words @ ..] = step else {
            return Err(Fault::UnknownCall);
        };
        match (text(call)?, words) {
            ("first", [start, wanted, left]) => {
                let (start, left) = (place(start)?, place(left)?);
                self.ask(start, need(wanted)?, left, answers)
            }
            ("push", [amount]) => self.push(free(amount)?),
            ("put", [position, amount]) => self.put(place(position)?, free(amount)?),
            _ => Err(Fault::UnknownCall),
        }
    }

    /// One more position.
    fn push(&mut self, amount: Option<Need>) -> Result<(), Fault> {
        self.list.push(amount)?;
        self.index.reserve(1)?;
        self.index.push_reserved(amount);
        Ok(())
    }

    /// Writes what is free at a position.
    fn put(&mut self, position: usize, amount: Option<Need>) -> Result<(), Fault> {
        if position >= self.index.len() {
            return Err(Fault::MayNot);
        }
        self.index.put(position, amount);
        match self.list.get_mut(position) {
            Some(place) => {
                *place = amount;
                Ok(())
            }
            None => Err(Fault::MayNot),
        }
    }

    /// Appends the first position that has room and passes the test.
    fn ask(
        &self,
        start: usize,
        need: Need,
        left: usize,
        answers: &mut String,
    ) -> Result<(), Fault> {
        if start > self.index.len() || start > self.list.len() {
            return Err(Fault::MayNot);
        }
        let found = self
            .index
            .first(start, need, |position| position % 4 != left);
        let list = self.list.as_slice();
        let asked = first_fit(list.len(), start, |position| match list.get(position) {
            Some(Some(free)) => need.fits(*free) && position % 4 != left,
            _ => false,
        });
        if !answers.is_empty() {
            answers.push(' ')?;
        }
        show_place(answers, found)?;
        if found != asked {
            answers.push('!')?;
            show_place(answers, asked)?;
        }
        Ok(())
    }
}

/// An amount, or `-` for none.
fn free(word: &Bytes) -> Result<Option<Need>, Fault> {
    if text(word)? == "-" {
        return Ok(None);
    }
    Ok(Some(need(word)?))
}
