//! Laws of the turns, each as the contract of a function that does nothing.

ghost use Rattle.std.specs.Prelude.{◌≡◌, ℕ, Bool, List, Option, Some, IsSome, true, nat_lt, length};
ghost use Rattle.mach_types.specs.declared.events.Choice.TheVariants as asked;
ghost use Rattle.mach_types.specs.declared.events.Sight.{Sight};
ghost use Rattle.mach_types.specs.declared.events.Tid.{Tid};
ghost use Rattle.chooser.specs.Cases.{emptied_before};
ghost use Rattle.draw_policies.specs.Acting.{can_act};
ghost use Rattle.draw_policies.specs.Conditions.{IsAllowed, IsSettled};
ghost use Rattle.draw_policies.specs.OwnSignals.{IsDeliverable, comes_back};
ghost use Rattle.draw_policies.specs.Turns.{turn};
ghost use Rattle.draw_policies.specs.declared.aims.Aim.{Aim};
ghost use Rattle.draw_policies.specs.declared.aims.Aim.TheVariants as means;
ghost use Rattle.draw_policies.specs.declared.policies.Weights.{Weights};
ghost use Rattle.draw_policies.specs.declared.turns.Turn.{Turn};

/// What a hart that can act does in its turn is allowed, whatever the weights, its aim and the word are.
pub fn turn_is_allowed()
    ensures { (weights : Weights) (seen : Sight) (traps : Bool) (threads : List ℕ) (last : Option Tid)
        (held : Option Aim) (w : ℕ) (t : Turn) → IsSettled seen → can_act seen (nat_lt 0 (length threads)) ≡ true
        → turn weights seen traps threads last held w ≡ Some t → IsAllowed seen threads t.choice }
{}

/// A hart that can act does something in its turn.
pub fn turns_come()
    ensures { (weights : Weights) (seen : Sight) (traps : Bool) (threads : List ℕ) (last : Option Tid)
        (held : Option Aim) (w : ℕ) → can_act seen (nat_lt 0 (length threads)) ≡ true
        → IsSome (turn weights seen traps threads last held w) }
{}

/// A hart that means to let a signal be delivered, where one can be, does so next, once no store of it waits: it goes on meaning so
/// until then, whatever the weights and the word are. It means so behind each event by which it goes to its kernel: a call or a fault of
/// its thread, and each event of the kernel itself.
pub fn own_signals_come_first()
    ensures next { (weights : Weights) (seen : Sight) (traps : Bool) (threads : List ℕ) (last : Option Tid) (w : ℕ)
        (t : Turn) → IsDeliverable seen → turn weights seen traps threads last (Some means.Signal) w ≡ Some t
        → t.choice ≡ emptied_before seen asked.Signal }
    ensures kept { (weights : Weights) (seen : Sight) (traps : Bool) (threads : List ℕ) (last : Option Tid) (w : ℕ)
        (t : Turn) → IsDeliverable seen → turn weights seen traps threads last (Some means.Signal) w ≡ Some t
        → t.aim ≡ Some means.Signal }
    ensures begins { (weights : Weights) (seen : Sight) (traps : Bool) (threads : List ℕ) (last : Option Tid)
        (held : Option Aim) (w : ℕ) (t : Turn) → turn weights seen traps threads last held w ≡ Some t
        → comes_back traps t.choice ≡ true → t.aim ≡ Some means.Signal }
{}
