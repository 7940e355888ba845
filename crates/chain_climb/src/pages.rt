// What was answered of pages.

ghost use Rattle.std.specs.Prelude.{◌≡◌, Some, None, MatchOption, IfOk, bytes_eq};
ghost use Rattle.std.specs.List.{list_any};
ghost use Rattle.chain_climb.specs.Climbs.{configuration_of, page_named};
ghost use Rattle.chain_climb.specs.Sessions.{answer_to, is_call, is_fault, is_policy, is_valid_answer, was_asked, some_policy};

use crate::answer::{Answer, Origin, PageAnswer, Report, Verdict};
use entity_id::EntityId;
use fed_base::Memory;
use std::alloc::Global;

// The answer to the want of a page.
#[tactic(auto, unfolding(crate::specs::Sessions::answer_to))]
pub fn find_answer<'a>(
    pages: &'a [PageAnswer],
    issuer: &EntityId,
    subject: &EntityId,
    url: &[u8],
) -> Option<&'a Report>
    ensures { let page = page_named issuer.now subject.now url.now in
        MatchOption result (answer_to pages.now page ≡ None) (λ answer. answer_to pages.now page ≡ Some answer.now) }
{
    for page in pages {
        if *issuer == page.issuer && *subject == page.subject && url == page.url.as_slice() {
            return Some(&page.answer);
        }
    }
    None
}

// The answer to the want of an entity's configuration.
pub fn find_configuration<'a>(
    alloc: Global,
    pages: &'a [PageAnswer],
    entity: &EntityId,
) -> Result<Option<&'a Report>, Memory>
    ensures { let page = configuration_of entity.now in
        IfOk result (λ found. MatchOption found (answer_to pages.now page ≡ None) (λ answer. answer_to pages.now page ≡ Some answer.now)) }
{
    let url = entity.well_known(alloc)?;
    Ok(find_answer(pages, entity, entity, url.as_slice()))
}

// Whether the URL was asked, under whatever names.
pub fn asked(pages: &[PageAnswer], url: &[u8]) -> bool
    ensures { result ≡ was_asked pages.now url.now }
{
    for page in pages {
        if url == page.url.as_slice() {
            return true;
        }
    }
    false
}

// Whether the link was called for the answer.
pub fn called(answer: &Report) -> bool
    ensures { result ≡ is_call answer.now }
{
    match answer {
        Report::Good(_, Origin::Link) => true,
        Report::Useless(Origin::Link) => true,
        Report::Fault => true,
        _ => false,
    }
}

pub fn failed(answer: &Report) -> bool
    ensures { result ≡ is_fault answer.now }
{
    match answer {
        Report::Fault => true,
        _ => false,
    }
}

// Whether some path fails by its policies alone.
pub fn policy_fails(verdicts: &[Verdict]) -> bool
    ensures { result ≡ some_policy verdicts.now }
{
    verdicts
        .iter()
        .any(|verdict| fails_by_policy(&verdict.answer))
}

pub fn fails_by_policy(answer: &Answer) -> bool
    ensures { result ≡ is_policy answer.now }
{
    match answer {
        Answer::PolicyFails => true,
        _ => false,
    }
}

pub fn is_valid(answer: &Answer) -> bool
    ensures { result ≡ is_valid_answer answer.now }
{
    match answer {
        Answer::Valid => true,
        _ => false,
    }
}

// Whether the entity stands among the others.
pub fn contains(entities: &[EntityId], entity: &EntityId) -> bool
    ensures { result ≡ list_any (bytes_eq entity.now) entities.now }
{
    entities.iter().any(|other| entity == other)
}
