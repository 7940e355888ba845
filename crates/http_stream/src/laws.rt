// Laws over the definitions alone.

ghost use Rattle.std.specs.Prelude.{◌≡◌, List, ℕ};
ghost use Rattle.http_messages.specs.declared.request.Incoming.{Incoming};
ghost use Rattle.http_stream.specs.Streams.{EndsInside, IsWhole, Stream};

/// What holds of streams.
pub fn one_stream()
    // So many bytes are one list of requests, however they were cut.
    ensures whole { (most : ℕ) (x : List ℕ) (rs ss : List Incoming) → IsWhole most x rs → IsWhole most x ss → rs ≡ ss }
    // They end inside one request, behind one list of them.
    ensures part { (most : ℕ) (x : List ℕ) (rs ss : List Incoming) → EndsInside most x rs → EndsInside most x ss → rs ≡ ss }
    // They don't do both.
    ensures either { (most : ℕ) (x : List ℕ) (rs ss : List Incoming) → IsWhole most x rs → EndsInside most x ss → ⊥ }
    // Those that are served to their end are a stream.
    ensures stream { (most : ℕ) (x : List ℕ) (rs : List Incoming) → IsWhole most x rs → (rest : List ℕ) × Stream most x rs rest }
{}
