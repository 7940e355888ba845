// Laws over the definitions alone.

ghost use Rattle.std.specs.Prelude.{◌≡◌, Bool, true, List, ℕ};
ghost use Rattle.chunked_body.specs.Answers.{IsChunked};
ghost use Rattle.chunked_body.specs.declared.reader.Chunked.{Chunked};

/// What holds of the bytes of a body in chunks.
pub fn one_answer()
    // Bytes have one answer.
    ensures answer { (x : List ℕ) (ended : Bool) (a b : Chunked) → IsChunked x ended a → IsChunked x ended b → a ≡ b }
    // Bytes have an answer once they end.
    ensures some { (x : List ℕ) → (a : Chunked) × IsChunked x true a }
{}
