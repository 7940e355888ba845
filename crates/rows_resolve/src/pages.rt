// What rows keep for those behind them: keys, and texts and pages under names.

ghost use Rattle.std.specs.Prelude.{IfOk};
ghost use Rattle.std.specs.Str.{IsUtf8};

use crate::keys::{Key, Keys};
use crate::names::words;
use fed_base::{Alg, Duplicate, Memory, Seq, Text};
use fed_net::NamedPage;
use fed_ports::Page;
use fed_resolver::AnchorBounds;
use sealed::seal_payload;
use slh_dsa::{MOST_SIGNATURE_BYTES, signature_bytes};
use std::alloc::Global;

// A page that is kept under a name. That of a text which stands nowhere has an empty URL.
#[derive(Drop)]
struct Kept {
    name: Text,
    page: NamedPage,
}

/// The keys, and what was kept.
#[derive(Drop)]
pub(crate) struct Shop {
    pub keys: Keys,
    /// How far the resolver's searches go.
    pub bounds: Seq<AnchorBounds>,
    kept: Seq<Kept>,
}

// The header's type of a text of that kind.
fn typ_of(alloc: Global, kind: &str) -> Result<Text, Memory>
    ensures { IfOk result IsUtf8 }
{
    match kind {
        "mark" => Text::of(alloc, b"trust-mark+jwt"),
        "delegation" => Text::of(alloc, b"trust-mark-delegation+jwt"),
        _ => Text::of(alloc, b"entity-statement+jwt"),
    }
}

// Adds bytes in base64url.
fn add_encoded(alloc: Global, out: &mut Text, bytes: &[u8]) -> Result<(), Memory> {
    let encoded = base64url::encode(alloc, bytes)?;
    let added = out.append(encoded.as_slice());
    drop(encoded);
    added
}

// Adds a statement of these claims whose signature is of zeros.
fn add_unsealed(alloc: Global, out: &mut Text, claims: &Text) -> Result<(), Memory> {
    let header =
        b"{\"alg\":\"SLH-DSA-SHA2-128s\",\"kid\":\"none\",\"typ\":\"entity-statement+jwt\"}";
    add_encoded(alloc, out, header)?;
    out.push(b'.')?;
    add_encoded(alloc, out, claims.as_slice())?;
    out.push(b'.')?;
    add_encoded(
        alloc,
        out,
        &[0; MOST_SIGNATURE_BYTES][..signature_bytes(Alg::Small)],
    )
}

fn unsealed(alloc: Global, claims: &Text) -> Result<Text, Memory> {
    let mut text = Text::new(alloc);
    add_unsealed(alloc, &mut text, claims)?;
    Ok(text)
}

impl Shop {
    pub(crate) fn new(alloc: Global) -> Shop {
        Shop {
            keys: Keys::new(alloc),
            bounds: Seq::new(alloc),
            kept: Seq::new(alloc),
        }
    }

    /// The claims, sealed by a key as a text of that kind; as a statement with a signature of zeros where the key is `-`.
    pub(crate) fn sealed(
        &mut self,
        alloc: Global,
        kind: &str,
        key: &str,
        claims: &Text,
    ) -> Result<Text, Memory> {
        let Some(key) = Key::named(key) else {
            return unsealed(alloc, claims);
        };
        let typ = typ_of(alloc, kind)?;
        let pair = self.keys.pair(key)?;
        seal_payload(alloc, &pair, &typ, claims.as_slice())
    }

    /// Keeps a page under a name.
    pub(crate) fn keep(
        &mut self,
        alloc: Global,
        name: &str,
        url: Text,
        page: Page,
    ) -> Result<(), Memory> {
        let name = Text::of(alloc, name.as_bytes())?;
        let page = NamedPage { url, page };
        self.kept.push(Kept { name, page })
    }

    // Adds the text that is kept under a name.
    fn add_text(&self, out: &mut Text, name: &str) -> Result<(), Memory> {
        for kept in self.kept.as_slice() {
            if kept.name.as_slice() == name.as_bytes() {
                if let Page::Document(text) = &kept.page.page {
                    return out.append(text.as_slice());
                }
            }
        }
        Ok(())
    }

    // Adds what stands between two at signs: the set of a key by its name, or the text that is kept under a name.
    fn add_named(&mut self, alloc: Global, out: &mut Text, name: &str) -> Result<(), Memory> {
        match Key::named(name) {
            Some(key) => out.append(self.keys.set(alloc, key)?.as_slice()),
            None => self.add_text(out, name),
        }
    }

    /// Adds claims, with what the names between two at signs stand for.
    pub(crate) fn add_claims(
        &mut self,
        alloc: Global,
        out: &mut Text,
        claims: &str,
    ) -> Result<(), Memory> {
        let mut is_name = false;
        for part in claims.split('@') {
            if is_name {
                self.add_named(alloc, out, part)?;
            } else {
                out.append(part.as_bytes())?;
            }
            is_name = !is_name;
        }
        Ok(())
    }

    // Adds the pages that are kept under a name.
    fn add_pages(
        &self,
        alloc: Global,
        web: &mut Seq<NamedPage>,
        name: &Text,
    ) -> Result<(), Memory> {
        for kept in self.kept.as_slice() {
            if kept.name.as_slice() == name.as_slice() {
                web.push(kept.page.copy(alloc)?)?;
            }
        }
        Ok(())
    }

    /// The pages that are kept under these names, with a space between two.
    pub(crate) fn web(&self, alloc: Global, names: &str) -> Result<Seq<NamedPage>, Memory> {
        let mut web = Seq::new(alloc);
        for name in words(alloc, names)?.as_slice() {
            self.add_pages(alloc, &mut web, name)?;
        }
        Ok(web)
    }
}
