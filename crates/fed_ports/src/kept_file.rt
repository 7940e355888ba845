// Files that were kept, one behind the other.

ghost use Rattle.std.specs.Prelude.{◌≡◌, ◌+◌, ◌<◌, ◌≤◌, ◌++◌, ◌∷◌, [], take, drop, length, vec_len, vec_capacity};
ghost use Rattle.std.specs.Option.{option_copied};
ghost use Rattle.fed_ports.specs.KeptFiles.{kept_of};

/// How many bytes a file's name and the file have. They stand one behind the other.
#[derive(Clone, Copy, Drop)]
pub struct KeptFile {
    pub name: usize,
    pub bytes: usize,
}

// As many bytes of the front as there are up to that number, and those behind them.
#[tactic(auto, using(std::proofs::lemmas::List::take_min, std::proofs::lemmas::List::drop_min))]
fn cut(bytes: &[u8], at: usize) -> (&[u8], &[u8])
    ensures front { result.0.now ≡ take at bytes.now }
    ensures behind { result.1.now ≡ drop at bytes.now }
{
    bytes.split_at(at.min(bytes.len()))
}

/// The bytes of the last file of that name.
pub fn last_kept<'a>(kept: &[KeptFile], bytes: &'a [u8], name: &[u8]) -> Option<&'a [u8]>
    ensures { option_copied result ≡ kept_of kept.now bytes.now name.now }
{
    let mut found = None;
    let mut rest = bytes;
    'files: for file in kept {
        let (named, behind) = cut(rest, file.name);
        let (bytes, behind) = cut(behind, file.bytes);
        if named == name {
            found = Some(bytes);
        }
        rest = behind;
    }
    found
}

/// Puts a file and its name behind the others, where there is room for it.
pub fn put(kept: &mut Vec<KeptFile>, all: &mut Vec<u8>, name: &[u8], bytes: &[u8])
    requires entry { vec_len kept.old < vec_capacity kept.old }
    requires room { vec_len all.old + (length name.now + length bytes.now) ≤ vec_capacity all.old }
    ensures kept { kept.new.items ≡ kept.old.items ++ record { name = length name.now; bytes = length bytes.now } ∷ [] }
    ensures entries { vec_len kept.new ≡ vec_len kept.old + 1 }
    ensures entry_room { vec_capacity kept.new ≡ vec_capacity kept.old }
    ensures bytes { all.new.items ≡ all.old.items ++ (name.now ++ bytes.now) }
    ensures size { vec_len all.new ≡ vec_len all.old + (length name.now + length bytes.now) }
    ensures byte_room { vec_capacity all.old ≤ vec_capacity all.new }
{
    kept.push_reserved(KeptFile {
        name: name.len(),
        bytes: bytes.len(),
    });
    all.extend_from_slice(name).unwrap();
    all.extend_from_slice(bytes).unwrap();
}
