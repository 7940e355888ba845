// Identifiers, as texts and as URLs.

ghost use Rattle.std.specs.Prelude.{◌≡◌, None, true, IfOk, OnOk, IsOkUnless, IsAscii, IsUtf8};
ghost use Rattle.std.specs.List.{list_all, list_any};
ghost use Rattle.url.specs.Parser.{parse_url};
ghost use Rattle.entity_id.specs.Identifiers.{is_plain, is_extra, has_web_scheme, identifier_in, identifier_of, host_of, Gives, IsIdentifier, ParsesTo};
ghost use Rattle.entity_id.specs.Urls.{well_known_of};

use crate::fault::IdFault;
use crate::urls::without_slash;
use fed_base::{Duplicate, Memory, Text};
use std::alloc::Global;
use std::marker::Model;
use url::{ParseError, Url};

// How many bytes an identifier has at most.
const MAX_LEN: usize = 2048;

// What stands behind an identifier in the URL of its configuration.
const WELL_KNOWN: &[u8] = b"/.well-known/openid-federation";

/// The identifier of an entity: at most 2,048 bytes of visible ASCII.
#[derive(Drop)]
pub struct EntityId {
    text: Text,
    host: Text,
}

// Contracts see an identifier as its text.
impl Model for EntityId {
    ghost use Rattle.std.specs.Prelude.{List, ℕ, ◌≡◌};

    ghost Value = { List ℕ };

    ghost use Rattle.entity_id.specs.Identifiers.{IsIdentifier, host_of};

    ghost view = { λ id. id.text };

    ghost invariant = { λ id. IsIdentifier id.text × (id.host ≡ host_of id.text) };
}

impl EntityId {
    /// Reads an identifier: a URL of the web with neither query, fragment nor user information. Of several faults the
    /// first in the order of [`IdFault`] is answered, but that a text with none of these marks is no URL comes last.
    #[tactic(auto, unfolding(crate::specs::Identifiers::identifier_in))]
    pub fn read(alloc: Global, text: &[u8]) -> Result<EntityId, IdFault>
        ensures exact { Gives result (identifier_in text.now) }
        ensures found { OnOk result (IsIdentifier text.now) }
        ensures only { IsIdentifier text.now → IsOkUnless result IdFault.Memory }
    {
        if text.len() > MAX_LEN || !all_plain(text) {
            return Err(IdFault::NotUrl);
        }
        if !is_of_web(text) {
            return Err(IdFault::Scheme);
        }
        if any_extra(text) {
            return Err(IdFault::Extra);
        }
        let url = parse(alloc, text)?;
        let host = Text::of(alloc, url.host_str().unwrap_or("").as_bytes())?;
        let text = Text::of(alloc, text)?;
        Ok(EntityId { text, host })
    }

    /// The identifier that the text is, and `None` where it is none.
    pub fn of(alloc: Global, text: &[u8]) -> Result<Option<EntityId>, Memory>
        ensures { IfOk result (λ id. id ≡ identifier_of text.now) }
    {
        match EntityId::read(alloc, text) {
            Ok(id) => Ok(Some(id)),
            Err(IdFault::Memory) => Err(Memory),
            Err(_) => Ok(None),
        }
    }

    /// The text that was read.
    pub fn text(&self) -> &[u8]
        ensures text { result.now ≡ self.now }
        ensures identifier { IsIdentifier result.now }
        ensures ascii { IsAscii result.now }
        ensures utf8 { IsUtf8 result.now }
    {
        self.text.as_slice()
    }

    /// The host of the URL, without its port. A domain is in lower case.
    pub fn host(&self) -> &[u8]
        ensures { result.now ≡ host_of self.now }
    {
        self.host.as_slice()
    }

    /// The URL at which the entity publishes its configuration (OpenID Federation 1.0 section 9).
    #[tactic(auto, unfolding(crate::specs::Urls::well_known_of))]
    pub fn well_known(&self, alloc: Global) -> Result<Text, Memory>
        ensures { IfOk result (λ url. url ≡ well_known_of self.now) }
    {
        let base = without_slash(self.text.as_slice());
        let mut url = Vec::with_capacity(alloc, base.len().saturating_add(WELL_KNOWN.len()))?;
        url.extend_from_slice(base)?;
        url.extend_from_slice(WELL_KNOWN)?;
        Ok(Text::from_vec(url))
    }
}

// Identifiers are compared as texts.
impl PartialEq for EntityId {
    ghost use Rattle.std.specs.Prelude.{nat_eq};
    ghost use Rattle.std.specs.Str.{bytes_eq};
    ghost use Rattle.std.proofs.Common.{rules};
    ghost use Rattle.std.specs.Cmp.Rules.{comparing};

    ghost eq = { bytes_eq };

    ghost laws = { Prim.search (comparing, rules) };

    fn eq(&self, other: &EntityId) -> bool {
        self.text.as_slice() == other.text.as_slice()
    }
}

impl Eq for EntityId {
    ghost use Rattle.std.proofs.Common.{rules};
    ghost use Rattle.std.specs.Cmp.Rules.{comparing};

    ghost laws = { Prim.search (comparing, rules) };
}

impl Duplicate for EntityId {
    fn copy(&self, alloc: Global) -> Result<Self, Memory> {
        let text = self.text.copy(alloc)?;
        let host = self.host.copy(alloc)?;
        Ok(EntityId { text, host })
    }
}

fn all_plain(text: &[u8]) -> bool
    ensures { result ≡ list_all is_plain text.now }
{
    text.iter().all(|b| b.is_ascii_graphic() && *b != b'\\')
}

fn any_extra(text: &[u8]) -> bool
    ensures { result ≡ list_any is_extra text.now }
{
    text.iter().any(|b| matches!(b, b'?' | b'#' | b'@'))
}

fn is_of_web(text: &[u8]) -> bool
    ensures { result ≡ has_web_scheme text.now }
{
    text.starts_with(b"https://") || text.starts_with(b"http://")
}

// The URL that the bytes are.
fn parse(alloc: Global, text: &[u8]) -> Result<Url, IdFault>
    requires { list_all is_plain text.now ≡ true }
    ensures { ParsesTo result (parse_url None text.now) }
{
    let text = std::str::from_utf8(text).unwrap();
    match Url::parse(alloc, text) {
        Ok(url) => Ok(url),
        Err(ParseError::OutOfMemory | ParseError::Overflow) => Err(IdFault::Memory),
        Err(_) => Err(IdFault::NotUrl),
    }
}
