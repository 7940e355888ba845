// Laws over the definitions alone.

ghost use Rattle.std.specs.Prelude.{◌≡◌, ◌⊎◌, List, ℕ};
ghost use Rattle.std.specs.List.{AllByRecursion};
ghost use Rattle.key_ring.specs.Changes.{AreChanges, Change, IsFit, after};
ghost use Rattle.key_ring.specs.Files.{IsOldFile, IsRingFile};
ghost use Rattle.key_ring.specs.Keeping.{IsChanged, IsTorn, IsUntouched, Migrates, OpensAs, Standing};
ghost use Rattle.key_ring.specs.Lasting.{RevokedStay};
ghost use Rattle.key_ring.specs.Rings.{IsRing, Ring};

/// What every list of accepted changes keeps.
pub fn changes()
    // A ring stays one: 1 to 16 keys, of which one is live and no two have one name.
    ensures ring { (old new : Ring) (changes : List Change) → IsRing old → AllByRecursion IsFit changes → AreChanges old changes new → IsRing new }
    // A revoked key stays revoked, at its moment and for its reason.
    ensures revoked { (old new : Ring) (changes : List Change) → IsRing old → AllByRecursion IsFit changes → AreChanges old changes new → RevokedStay old new }
{}

/// What holds of every ring's file.
pub fn files()
    // It is that of one ring, in either version, so opening it has one answer.
    ensures { (bytes : List ℕ) (a b : Ring) → IsRingFile bytes a → IsRingFile bytes b → a ≡ b }
{}

/// What holds where a change was accepted of a ring whose file is of version 1.
pub fn migrates()
    // The file that is kept opens as the changed ring, and is of version 2.
    ensures { (bytes : List ℕ) (before now : Standing) (change : Change) (name : List ℕ) → IsOldFile bytes before.ring
        → IsChanged before (after before.ring change) name now → Migrates before change name now }
{}

/// What holds of the file that calls keep of a ring, where the store tells its files and the file opened before.
pub fn opens()
    // It opens as the changed ring where the change was made.
    ensures made { (ring changed : Ring) (before now : Standing) (name : List ℕ) → OpensAs before.files name ring → IsChanged before changed name now
        → OpensAs now.files name changed }
    // After a fault of the store it opens as before, or as the changed ring.
    ensures torn { (ring changed : Ring) (before now : Standing) (name : List ℕ) → OpensAs before.files name ring → IsTorn before changed name now
        → OpensAs now.files name ring ⊎ OpensAs now.files name changed }
    // After any other answer it opens as before.
    ensures untouched { (ring : Ring) (before now : Standing) (name : List ℕ) → OpensAs before.files name ring → IsUntouched before now
        → OpensAs now.files name ring }
{}
