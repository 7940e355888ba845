// What one hint of a path comes to.

ghost use Rattle.std.specs.Prelude.{◌≡◌, ◌<◌, length, None, IfOk, option_copied};
ghost use Rattle.chain_climb.specs.Facings.{face_of, after_endpoint, after_statement};

use crate::answer::{PageAnswer, Report};
use crate::pages::{contains, find_answer};
use crate::path::Path;
use crate::want::Want;
use entity_id::{EntityId, fetch_url};
use fed_base::{Duplicate, Memory, Text};
use std::alloc::Global;

// What a hint comes to.
#[derive(Drop)]
pub enum Facing {
    // There is nothing more to do.
    Passed,
    // A page is wanted.
    Wants(Want),
    // A page had to be asked of the link, and all calls were made.
    Spent,
    // The superior's statement is good, and stands at this URL.
    Adds(Text),
}

#[tactic(auto, unfolding(crate::specs::Facings::face_of))]
pub fn face(
    alloc: Global,
    pages: &[PageAnswer],
    path: &Path,
    hint: &EntityId,
) -> Result<Facing, Memory>
    requires { 0 < length path.now.entities }
    ensures { IfOk result (λ facing. facing ≡ face_of pages.now path.now hint.now) }
{
    if contains(path.entities.as_slice(), hint) {
        return Ok(Facing::Passed);
    }
    let url = hint.well_known(alloc)?;
    match find_answer(pages, hint, hint, url.as_slice()) {
        None => {
            let entity = hint.copy(alloc)?;
            Ok(Facing::Wants(Want::Config { entity, url }))
        }
        Some(Report::Good(statement, _)) => face_superior(
            alloc,
            pages,
            path,
            hint,
            statement.fetch_endpoint(),
        ),
        Some(Report::Spent) => Ok(Facing::Spent),
        Some(_) => Ok(Facing::Passed),
    }
}

fn face_superior(
    alloc: Global,
    pages: &[PageAnswer],
    path: &Path,
    hint: &EntityId,
    endpoint: Option<&Text>,
) -> Result<Facing, Memory>
    requires { 0 < length path.now.entities }
    ensures { IfOk result (λ facing. facing ≡ after_endpoint pages.now path.now hint.now (option_copied endpoint.entry)) }
{
    let Some(endpoint) = endpoint else {
        return Ok(Facing::Passed);
    };
    let last = path.last();
    let url = fetch_url(alloc, endpoint, last)?;
    match find_answer(pages, hint, last, url.as_slice()) {
        None => want_statement(alloc, hint, last, url),
        Some(Report::Good(_, _)) => Ok(Facing::Adds(url)),
        Some(Report::Spent) => Ok(Facing::Spent),
        Some(_) => Ok(Facing::Passed),
    }
}

// The want of a superior's statement.
fn want_statement(
    alloc: Global,
    superior: &EntityId,
    subject: &EntityId,
    url: Text,
) -> Result<Facing, Memory>
    ensures { IfOk result (λ facing. facing ≡ after_statement superior.now subject.now url None) }
{
    let superior = superior.copy(alloc)?;
    let subject = subject.copy(alloc)?;
    Ok(Facing::Wants(Want::Superior {
        superior,
        subject,
        url,
    }))
}
