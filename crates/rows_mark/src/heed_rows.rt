// Rows that ask the issuers of marks about them.

ghost use Rattle.std.specs.Prelude.{◌≡◌, IfOk, IsSome, IsTrue, All, length};
ghost use Rattle.entity_statement.specs.Signed.{statement_of};
ghost use Rattle.trust_mark.specs.Marks.{mark_of};

use crate::read_rows::text_of;
use crate::words::{add_number, add_word, cut};
use entity_statement::{MarkEntry, SignedStatement};
use fed_base::{Duplicate, Memory, OpensLedgers, Plain, Seq, Steps, Text};
use fed_ports::Page;
use mark_status::{Heeded, MemoryAsker, Post, Tell, heed};
use std::alloc::Global;
use trust_mark::mark_of;

/// The marks that are asked about, their issuers' configurations, and the pages that come.
#[derive(Drop)]
pub(crate) struct Returned {
    marks: Seq<MarkEntry>,
    configs: Seq<Text>,
    pages: Seq<Page>,
}

impl Returned {
    /// No marks.
    pub(crate) fn new(alloc: Global) -> Returned {
        Returned {
            marks: Seq::new(alloc),
            configs: Seq::new(alloc),
            pages: Seq::new(alloc),
        }
    }

    /// `returned TYPE CLAIMS`: the kept text is a mark of this type, and its issuer's configuration claims this.
    pub(crate) fn add(&mut self, alloc: Global, given: &str, kept: &Text) -> Result<(), Memory> {
        let (mark_type, claims) = cut(given);
        let mut config = Text::of(
            alloc,
            b"{\"alg\":\"SLH-DSA-SHA2-128s\",\"typ\":\"entity-statement+jwt\"}\t",
        )?;
        config.append(claims.as_bytes())?;
        let config = config_of(alloc, &config)?;
        let mark_type = Text::of(alloc, mark_type.as_bytes())?;
        let text = kept.copy(alloc)?;
        self.marks.push(MarkEntry { mark_type, text })?;
        self.configs.push(config)
    }

    /// `page WORD`: the next page is the kept text, one of that word, or one of that status.
    pub(crate) fn add_page(
        &mut self,
        alloc: Global,
        word: &str,
        kept: &Text,
    ) -> Result<(), Memory> {
        let page = match word {
            "kept" => Page::Document(kept.copy(alloc)?),
            "garbled" => Page::Garbled,
            "too-long" => Page::TooLong,
            "no-route" => Page::NoRoute,
            status => Page::Refusal(status.parse::<u16>().unwrap_or(0)),
        };
        self.pages.push(page)
    }

    /// `heed MOMENT CALL ..`: what each mark is told where the calls of these numbers fail, the types of those that are kept, their end,
    /// how many signatures were tested, and the posts that were made.
    pub(crate) fn heed<R: OpensLedgers>(
        &self,
        rt: &R,
        alloc: Global,
        given: &str,
    ) -> Result<Text, Memory> {
        if !all_read(alloc, &self.marks, &self.configs)? {
            return Text::of(alloc, b"no marks");
        }
        let (moment, failing) = cut(given);
        let t = moment.parse::<u64>().unwrap_or(0);
        let failing = failing.parse::<u64>().unwrap_or(99);
        let mut asker = MemoryAsker::new(alloc, self.pages.copy(alloc)?, &[failing], 16)?;
        let mut steps = Steps {
            ledger: Plain::new(rt),
        };
        let heeded = heed(alloc, &mut asker, &self.marks, &self.configs, t, &mut steps)?;
        heeded_told(alloc, &heeded, steps.ledger.steps(), asker.posts())
    }
}

fn config_of(alloc: Global, given: &Text) -> Result<Text, Memory> {
    match std::str::from_utf8(given.as_slice()) {
        Ok(given) => text_of(alloc, given),
        Err(_) => Ok(Text::new(alloc)),
    }
}

// Whether the text is a mark.
fn reads_as_mark(alloc: Global, text: &Text) -> Result<bool, Memory>
    ensures { IfOk result (λ reads. IsTrue reads → IsSome (mark_of text.now)) }
{
    Ok(mark_of(alloc, text.as_slice())?.is_some())
}

// Whether the text is a statement.
fn reads_as_statement(alloc: Global, text: &Text) -> Result<bool, Memory>
    ensures { IfOk result (λ reads. IsTrue reads → IsSome (statement_of text.now)) }
{
    match SignedStatement::read(alloc, text.as_slice())? {
        Some(signed) => {
            drop(signed);
            Ok(true)
        },
        None => Ok(false),
    }
}

// Whether there are as many configurations as marks, and all of them read.
fn all_read(alloc: Global, marks: &Seq<MarkEntry>, configs: &Seq<Text>) -> Result<bool, Memory>
    ensures marks { IfOk result (λ reads. IsTrue reads → All (λ entry. IsSome (mark_of entry.text)) marks.now) }
    ensures configs { IfOk result (λ reads. IsTrue reads → All (λ config. IsSome (statement_of config)) configs.now) }
    ensures each { IfOk result (λ reads. IsTrue reads → length marks.now ≡ length configs.now) }
{
    Ok(
        marks.len() == configs.len()
            && marks_read(alloc, marks.as_slice())?
            && configs_read(alloc, configs.as_slice())?,
    )
}

fn marks_read(alloc: Global, marks: &[MarkEntry]) -> Result<bool, Memory>
    ensures { IfOk result (λ reads. IsTrue reads → All (λ entry. IsSome (mark_of entry.text)) marks.now) }
{
    for entry in marks {
        if !reads_as_mark(alloc, &entry.text)? {
            return Ok(false);
        }
    }
    Ok(true)
}

fn configs_read(alloc: Global, configs: &[Text]) -> Result<bool, Memory>
    ensures { IfOk result (λ reads. IsTrue reads → All (λ config. IsSome (statement_of config)) configs.now) }
{
    for config in configs {
        if !reads_as_statement(alloc, config)? {
            return Ok(false);
        }
    }
    Ok(true)
}

fn tell_word(tell: Tell) -> &'static [u8] {
    match tell {
        Tell::Active => b"active",
        Tell::Unasked => b"unasked",
        Tell::Refused(status) => status.word(),
        Tell::Useless => b"useless",
        Tell::Fault => b"fault",
    }
}

fn add_post(out: &mut Text, post: &Post) -> Result<(), Memory> {
    add_word(out, post.url.as_slice())?;
    add_word(out, post.body.as_slice())
}

fn heeded_told(alloc: Global, heeded: &Heeded, tests: u64, posts: &[Post]) -> Result<Text, Memory> {
    let mut out = Text::new(alloc);
    for tell in heeded.tells.as_slice() {
        add_word(&mut out, tell_word(*tell))?;
    }
    add_word(&mut out, b"kept")?;
    add_kept(alloc, &mut out, heeded)?;
    add_word(&mut out, b"tested")?;
    add_number(alloc, &mut out, tests)?;
    add_posts(&mut out, posts)?;
    Ok(out)
}

fn add_kept(alloc: Global, out: &mut Text, heeded: &Heeded) -> Result<(), Memory> {
    for entry in heeded.kept.as_slice() {
        add_word(out, entry.mark_type.as_slice())?;
    }
    match heeded.exp {
        Some(exp) => {
            add_word(out, b"until")?;
            add_number(alloc, out, exp)
        },
        None => Ok(()),
    }
}

fn add_posts(out: &mut Text, posts: &[Post]) -> Result<(), Memory> {
    for post in posts {
        add_post(out, post)?;
    }
    Ok(())
}
