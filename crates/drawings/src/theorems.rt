//! Laws of the drawing, each as the contract of a function that does nothing.

ghost use Rattle.std.specs.Prelude.{◌≡◌, ◌<◌, ℕ, Some, IsSome, false, true};
ghost use Rattle.drawings.specs.Allowed.{AreSettled, IsAllowedOf};
ghost use Rattle.drawings.specs.Drawings.{Drawn, IsFor, continues, current, draw, goes_on, kept_after, next_word};
ghost use Rattle.drawings.specs.Scenes.{Scene, is_able};
ghost use Rattle.drawings.specs.declared.drawing.Drawing.{Drawing};

/// Each event that is drawn is of a hart of the machine, and is allowed by what is seen of it, where no store
/// waits on an idle hart, nor on one whose thread waits in a barrier.
pub fn drawn_event_is_allowed()
    ensures { (scene : Scene) (d : Drawing) (x : Drawn) → IsFor scene.harts d → AreSettled scene
        → draw scene d ≡ Some x → IsAllowedOf scene d.opened x }
{}

/// After a draw the harts that the drawing speaks of are still harts of the machine, so it may be drawn on.
pub fn drawing_goes_on()
    ensures { (scene : Scene) (d : Drawing) → IsFor scene.harts d
        → IsFor scene.harts (kept_after (draw scene d) d) }
{}

/// Where a hart can make an event one is drawn.
pub fn an_event_is_drawn()
    ensures { (scene : Scene) (d : Drawing) (h : ℕ) → IsFor scene.harts d → h < scene.harts
        → is_able scene d.opened h ≡ true → IsSome (draw scene d) }
{}

/// By a lasting policy a stretch ends by a word alone. As long as the words say that it goes on it stays its owner's and keeps its stay,
/// whoever acts; and where its owner can act it does, but for the credit of the last hart.
pub fn lasting_stretches_keep_their_owner()
    ensures owner { (scene : Scene) (d : Drawing) (x : Drawn) → (current d).lasting ≡ true
        → continues d (next_word d) ≡ true → draw scene d ≡ Some x → x.after.owner ≡ d.owner }
    ensures stay { (scene : Scene) (d : Drawing) (x : Drawn) → continues d (next_word d) ≡ true
        → draw scene d ≡ Some x → x.after.stretch ≡ d.stretch }
    ensures acts { (scene : Scene) (d : Drawing) (x : Drawn) → continues d (next_word d) ≡ true
        → is_able scene d.opened d.owner.0 ≡ true → goes_on scene d ≡ false → draw scene d ≡ Some x
        → x.hart ≡ d.owner.0 }
{}
