// Chains that are judged.

ghost use Rattle.std.specs.Prelude.{◌≡◌, ◌<◌, [], ℕ, length, map, true, IfOk, IsOk, OnOk, slice_index_or};
ghost use Rattle.std.specs.Option.{option_copied};
ghost use Rattle.jws_form.specs.Compact.{IsCompact};
ghost use Rattle.jws_form.specs.Splitting.{splitting};
ghost use Rattle.sealed.specs.Seals.{IsSealed, pair_of};
ghost use Rattle.chain_check.specs.Judging.{NeedsTest, texts_of};
ghost use Rattle.resolve_round.specs.Courses.{pages_of};
ghost use Rattle.resolve_search.specs.Calls.{Judges};
ghost use Rattle.resolve_round.specs.Calls.{HasPass, Tests};
ghost use Rattle.resolve_search.specs.Judging.{AreGot, IsCandidate, IsRuled, IsRulingOf, IsSealedMore, IsTried, IsTurn, case_at, gives_text, refused_as, texts_at, untried, url_for};
ghost use Rattle.resolve_round.specs.Knowing.{AnswersStand, HoldsSoFar, IsAnswer, IsKnownGood};
ghost use Rattle.resolve_round.specs.Testing.{KeepsKnown, StaysProved, StaysTrue};

use chain_check::{Judged, Reason, Resolved, Screened, Tried, Verdict, judge_candidate, screen};
use entity_statement::SignedStatement;
use fed_base::{Duplicate, Ledger, Memory, Seq, Text};
use jws_form::{Compact, FormFault, split_text};
use resolve_round::{Aim, Ask, Call, Halt, Search, text_got, verifies};
use sealed::Sealed;
use std::alloc::Global;
use std::sync::Wait;

// What a chain was judged to be.
#[derive(Drop)]
pub(crate) enum Ruling {
    // Valid: its texts with the keys under which they verify, and what it resolves to.
    Valid(Seq<Tried>, Resolved),
    // It fails by its policies alone.
    PolicyFails,
    // It fails before.
    Invalid,
}

// A turn of a judgement: it is over, or one seal more of the chain is known.
#[derive(Drop)]
pub(crate) enum Turn {
    Ruled(Ruling),
    More(Seq<Tried>),
}

// How many turns there are at most: one for each seal of fourteen texts, one for the second of the leaf's, and the last.
const MOST_TURNS: u64 = 16;

// The text that was got at a URL.
#[tactic(auto, unfolding(resolve_round::specs::Courses::pages_of))]
fn text_at<'a>(asks: &'a [Ask], url: &Text) -> Option<&'a Text>
    ensures { option_copied result ≡ pages_of asks.now url.now }
{
    for ask in asks {
        if ask.url.as_slice() == url.as_slice() {
            return text_got(&ask.got);
        }
    }
    None
}

// The texts that were got at the URLs of a chain.
fn texts_at(alloc: Global, asks: &[Ask], urls: &[Text]) -> Result<Seq<Tried>, Memory>
    ensures { IfOk result (λ chain. chain ≡ map untried (texts_at asks.now urls.now)) }
{
    let mut chain = Seq::new(alloc);
    for url in urls {
        if let Some(text) = text_at(asks, url) {
            chain.push(Tried {
                text: text.copy(alloc)?,
                seals: Seq::new(alloc),
                misses: Seq::new(alloc),
            })?;
        }
    }
    Ok(chain)
}

// Whether an ask gave the text.
fn gives(ask: &Ask, text: &Text) -> bool
    ensures { result ≡ gives_text text.now ask.now }
{
    match text_got(&ask.got) {
        Some(got) => got.as_slice() == text.as_slice(),
        None => false,
    }
}

// The URL at which a text was got.
#[tactic(auto, unfolding(crate::specs::Judging::url_for))]
fn url_got<'a>(asks: &'a [Ask], text: &Text) -> Option<&'a Text>
    ensures { option_copied result ≡ url_for asks.now text.now }
{
    for ask in asks {
        if gives(ask, text) {
            return Some(&ask.url);
        }
    }
    None
}

// The chain with a key more under which the text at the place is known to verify.
fn with_seal(
    alloc: Global,
    chain: Seq<Tried>,
    place: usize,
    public: &[u8; 32],
) -> Result<Seq<Tried>, Memory>
    requires place { place < length chain }
    requires sealed { IsSealed (pair_of (slice_index_or (texts_of chain) place []) public.now) }
    ensures { IfOk result (IsSealedMore chain place public.now) }
{
    let mut chain = chain;
    let tried = &chain.as_slice()[place];
    let mut seals = tried.seals.copy(alloc)?;
    seals.push(Sealed::known(alloc, &tried.text, *public)?)?;
    let text = tried.text.copy(alloc)?;
    let misses = tried.misses.copy(alloc)?;
    chain.set(
        place,
        Tried {
            text,
            seals,
            misses,
        },
    );
    Ok(chain)
}

// The parts of a text that is known to be a compact text.
fn compact_of(alloc: Global, text: &Text) -> Result<Compact, Memory>
    requires { IsOk (splitting text.now) }
    ensures { IfOk result (λ compact. IsCompact text.now compact) }
{
    match split_text(alloc, text) {
        Ok(compact) => Ok(compact),
        Err(fault) => match fault {
            FormFault::Memory => Err(Memory),
            _ => unreachable!(),
        },
    }
}

// Whether a text at the URL verifies under the key.
fn text_verifies<R: Wait, G: Ledger>(
    call: &mut Call<'_, R, G>,
    url: &Text,
    text: &Text,
    public: &[u8; 32],
) -> Result<bool, Halt>
    requires of { HasPass call.old }
    requires compact { IsOk (splitting text.now) }
    requires answers { AnswersStand call.old.trace.now.checks }
    ensures tests { Tests G.count call.old call.new result }
    ensures answer { IfOk result (IsAnswer (pair_of text.now public.now)) }
    ensures good { IfOk result (λ good. good ≡ true → IsKnownGood call.new.trace.now (pair_of text.now public.now)) }
    ensures stays_known { KeepsKnown call.old.trace.now call.new.trace.now }
    ensures stays_true { StaysTrue url.now (pair_of text.now public.now) call.old.trace.now call.new.trace.now }
    ensures proved { OnOk result (StaysProved url.now (pair_of text.now public.now) call.old.trace.now call.new.trace.now) }
{
    let compact = compact_of(call.alloc, text)?;
    verifies(call, url, &compact, public)
}

// Makes the test that is wanted. Where the text verifies, one seal more of the chain is known; where it doesn't, the chain fails.
fn test_seal<R: Wait, G: Ledger>(
    call: &mut Call<'_, R, G>,
    search: &Search,
    aim: &Aim,
    chain: Seq<Tried>,
    place: usize,
    public: &[u8; 32],
) -> Result<Turn, Halt>
    requires of { HasPass call.old }
    requires holds { HoldsSoFar aim.now.age search.now call.old.trace.now }
    requires got { AreGot search.now.asks (texts_of chain) }
    requires needs { NeedsTest (case_at call.old.trace.now aim.now.anchor (texts_of chain)) chain place public.now }
    ensures judges { Judges G.count aim.now.age search.now call.old call.new result }
    ensures turn { IfOk result (λ turn. (n : ℕ) → IsTried call.old.trace.now (case_at call.old.trace.now aim.now.anchor (texts_of chain)) n chain
        → IsTurn call.new.trace.now (case_at call.old.trace.now aim.now.anchor (texts_of chain)) n turn) }
{
    let text = &chain.as_slice()[place].text;
    let Some(url) = url_got(search.asks.as_slice(), text) else {
        unreachable!()
    };
    if text_verifies(call, url, text, public)? {
        Ok(Turn::More(with_seal(call.alloc, chain, place, public)?))
    } else {
        Ok(Turn::Ruled(Ruling::Invalid))
    }
}

// One turn of a judgement.
fn take_turn<R: Wait, G: Ledger>(
    call: &mut Call<'_, R, G>,
    search: &Search,
    aim: &Aim,
    entries: &Seq<SignedStatement>,
    chain: Seq<Tried>,
) -> Result<Turn, Halt>
    requires of { HasPass call.old }
    requires holds { HoldsSoFar aim.now.age search.now call.old.trace.now }
    requires got { AreGot search.now.asks (texts_of chain) }
    requires candidate { IsCandidate (case_at call.old.trace.now aim.now.anchor (texts_of chain)) entries.now }
    requires tried { IsTried call.old.trace.now (case_at call.old.trace.now aim.now.anchor (texts_of chain)) 0 chain }
    ensures judges { Judges G.count aim.now.age search.now call.old call.new result }
    ensures turn { IfOk result (λ turn. (n : ℕ) → IsTried call.old.trace.now (case_at call.old.trace.now aim.now.anchor (texts_of chain)) n chain
        → IsTurn call.new.trace.now (case_at call.old.trace.now aim.now.anchor (texts_of chain)) n turn) }
{
    match judge_candidate(call.alloc, entries, &chain, &call.trace.keys)? {
        Judged::Told(verdict) => Ok(Turn::Ruled(ruled_by(chain, verdict))),
        Judged::Untried { place, public } => {
            test_seal(call, search, aim, chain, place as usize, &public)
        }
    }
}

// Judges a candidate, and tests each pair that has to be known for it.
fn judge_turns<R: Wait, G: Ledger>(
    call: &mut Call<'_, R, G>,
    search: &Search,
    aim: &Aim,
    entries: &Seq<SignedStatement>,
    chain: Seq<Tried>,
) -> Result<Ruling, Halt>
    requires of { HasPass call.old }
    requires holds { HoldsSoFar aim.now.age search.now call.old.trace.now }
    requires got { AreGot search.now.asks (texts_of chain) }
    requires candidate { IsCandidate (case_at call.old.trace.now aim.now.anchor (texts_of chain)) entries.now }
    requires tried { IsTried call.old.trace.now (case_at call.old.trace.now aim.now.anchor (texts_of chain)) 0 chain }
    ensures judges { Judges G.count aim.now.age search.now call.old call.new result }
    ensures ruled { IfOk result (IsRuled call.new.trace.now (case_at call.old.trace.now aim.now.anchor (texts_of chain))) }
{
    let mut tried = chain;
    for _turn in 0..MOST_TURNS {
        match take_turn(call, search, aim, entries, tried)? {
            Turn::Ruled(ruling) => return Ok(ruling),
            Turn::More(more) => tried = more,
        }
    }
    unreachable!()
}

// What a verdict says.
fn ruled_by(chain: Seq<Tried>, verdict: Verdict) -> Ruling
    ensures { IsRulingOf chain verdict result }
{
    match verdict {
        Verdict::Valid(resolved) => Ruling::Valid(chain, resolved),
        Verdict::Refused { place: _, reason } => refused(&reason),
    }
}

// What a reason says.
fn refused(reason: &Reason) -> Ruling
    ensures { result ≡ refused_as reason.now }
{
    match reason {
        Reason::Conflict { .. } => Ruling::PolicyFails,
        Reason::Policy { .. } => Ruling::PolicyFails,
        _ => Ruling::Invalid,
    }
}

// Judges the chain of the texts that a round got at these URLs, and tests each pair that has to be known for it.
pub(crate) fn judge_path<R: Wait, G: Ledger>(
    call: &mut Call<'_, R, G>,
    search: &Search,
    aim: &Aim,
    urls: &[Text],
) -> Result<Ruling, Halt>
    requires of { HasPass call.old }
    requires holds { HoldsSoFar aim.now.age search.now call.old.trace.now }
    ensures judges { Judges G.count aim.now.age search.now call.old call.new result }
    ensures ruled { IfOk result (IsRuled call.new.trace.now (case_at call.old.trace.now aim.now.anchor (texts_at search.now.asks urls.now))) }
{
    let chain = texts_at(call.alloc, search.asks.as_slice(), urls)?;
    match screen(call.alloc, &chain, &aim.anchor, call.trace.moment)? {
        Screened::Candidate(entries) => judge_turns(call, search, aim, &entries, chain),
        Screened::Refused { place: _, reason } => Ok(refused(&reason)),
    }
}
