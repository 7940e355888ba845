//! Laws over the definitions alone.

ghost use Rattle.std.specs.Prelude.{◌≡◌, ◌<◌, ◌↔◌, List, [], ◌∷◌, ℕ, codes, All, Some};
ghost use Rattle.form_urlencoded.specs.Form.{parse};
ghost use Rattle.trust_mark.specs.declared.status.MarkStatus.{MarkStatus as AnyStatus};
ghost use Rattle.mark_status.specs.Answers.{Asking, IsAnswer, form_of, told_by};
ghost use Rattle.mark_status.specs.Heeding.{Heeding, Heeds};
ghost use Rattle.mark_status.specs.declared.heeded.Heeded.{Heeded as AnyHeeded};
ghost use Rattle.mark_status.specs.declared.post.Post.{Post};

/// The form that asks about a mark reads as one parameter, `trust_mark`, which is the mark's text. It does nothing.
pub fn forms()
    ensures { (mark : List ℕ) → All (λ b. b < 256) mark → parse (form_of mark) ≡ (codes "trust_mark", mark) ∷ [] }
{}

/// A text tells a status exactly where it is the issuer's answer on the mark, and says this. It does nothing.
pub fn answers()
    ensures { (here : Asking) (text : List ℕ) (status : AnyStatus) → (told_by here text ≡ Some status) ↔ IsAnswer here text status }
{}

/// What is heeded is a function of what was posted and got. It does nothing.
pub fn heedings()
    ensures { (here : Heeding) (posts : List Post) (tests more : ℕ) (heeded other : AnyHeeded)
        → Heeds here posts tests heeded → Heeds here posts more other → (other ≡ heeded) × (more ≡ tests) }
{}
