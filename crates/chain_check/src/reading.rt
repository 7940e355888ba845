// The statements of a chain's texts.

ghost use Rattle.std.specs.Prelude.{◌≡◌, map};
ghost use Rattle.chain_check.specs.declared.reason.Reason.TheVariants.{Form};
ghost use Rattle.chain_check.specs.Chains.{LosesForm};
ghost use Rattle.chain_check.specs.Reading.{AreRead};
ghost use Rattle.chain_check.specs.Stages.{Passes};

use crate::holds_text::HoldsText;
use crate::reason::Reason;
use crate::stop::Stop;
use entity_statement::SignedStatement;
use fed_base::Seq;
use std::alloc::Global;

// How many statements a chain has at most.
const MAX_STATEMENTS: usize = 14;

/// The statements of the texts, or the first place at which there is none.
pub(crate) fn read_chain<T: HoldsText>(
    alloc: Global,
    texts: &[T],
) -> Result<Seq<SignedStatement>, Stop>
    ensures { Passes result (AreRead (map T.text_of texts.now))
        (λ place reason. (reason ≡ Form) × LosesForm (map T.text_of texts.now) place) }
{
    if texts.is_empty() {
        return Err(Stop::Refused {
            place: 0,
            reason: Reason::Form,
        });
    }
    let mut entries = Seq::new(alloc);
    for (j, holder) in texts.iter().enumerate() {
        if j >= MAX_STATEMENTS {
            return Err(Stop::Refused {
                place: j as u64,
                reason: Reason::Form,
            });
        }
        match SignedStatement::read_text(alloc, holder.text())? {
            Some(entry) => entries.push(entry)?,
            None => return Err(Stop::Refused {
                place: j as u64,
                reason: Reason::Form,
            }),
        }
    }
    Ok(entries)
}
