//! Laws: what a floor stands for.
ghost use Rattle.std.specs.Prelude.{◌≡◌, ◌<◌, ℕ, length, nat_lt, true};
ghost use Rattle.floors.specs.Floors.{Floor, MayStandFor, above_both, row_on};
ghost use Rattle.session_rows.specs.Calls.{learn_of};
ghost use Rattle.session_rows.specs.declared.claim.Heard.{Heard};
ghost use Rattle.sessions.specs.Rows.{Row, claimed, dropped, is_new};
ghost use Rattle.sessions.specs.Tables.{Drops, World, happens, row_at};

/// A row that is dropped to a floor is the row that begins there, if the floor may stand for it.
pub fn what_is_dropped_begins_at_its_floor()
    ensures { (f : Floor) (number : ℕ) (r : Row) → MayStandFor f number r → dropped r (f.epochs number) f.stamp ≡ row_on f number }
{}

/// A voter that forgets the row of a number, and keeps a floor that may stand for it, has the row of the event `Drops` of `sessions`.
pub fn to_forget_is_to_drop()
    ensures { (f : Floor) (number voter : ℕ) (w : World) → voter < length w.live → MayStandFor f number (row_at w.live voter)
        → row_at (happens w (Drops voter (f.epochs number) f.stamp)).live voter ≡ row_on f number }
{}

/// A claim of a number that was dropped is taken if and only if its epoch is above the floor's. Its session's stamps are above the floor.
pub fn who_comes_later_is_above()
    ensures epoch { (f : Floor) (number epoch : ℕ) → is_new (row_on f number) epoch ≡ nat_lt (f.epochs number) epoch }
    ensures base { (f : Floor) (number session epoch : ℕ) → f.epochs number < epoch → (claimed (row_on f number) session epoch).base ≡ f.stamp }
{}

/// To learn the floor of another voter, which dropped the number too, is to have the floor above both, if it is told as one of sessions that
/// were heard.
pub fn floors_are_learned_as_rows()
    ensures { (f g : Floor) (number : ℕ) (heard : Heard) → heard.there ≡ true → learn_of (row_on f number) (row_on g number) heard ≡ row_on (above_both f g) number }
{}
