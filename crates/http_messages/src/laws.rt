// Laws over the definitions alone.

ghost use Rattle.std.specs.Prelude.{◌≡◌, List, ℕ, Result};
ghost use Rattle.http_messages.specs.declared.read.ReadEnd.{ReadEnd};
ghost use Rattle.http_messages.specs.declared.request.Incoming.{Incoming};
ghost use Rattle.http_messages.specs.declared.request.Request.{Request};
ghost use Rattle.http_messages.specs.Readings.{Fits};
ghost use Rattle.http_messages.specs.Requests.{RequestText};

/// What holds of the texts of requests.
pub fn one_answer()
    // A text is that of one request.
    ensures text { (text : List ℕ) (a b : Request) → RequestText text a → RequestText text b → a ≡ b }
    // Bytes have one answer: a request that they begin with, that they aren't one, or that they end early.
    ensures answer { (x : List ℕ) (a b : Result Incoming ReadEnd) → Fits x a → Fits x b → a ≡ b }
{}
