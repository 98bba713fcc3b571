//! Values, glides and frees, called or timed.

ghost use Rattle.std.specs.Prelude.{ℕ, List};
ghost use Rattle.node.specs.declared.order.LastOrder.{LastOrder};
ghost use Rattle.node.specs.declared.record.VoiceId.{VoiceId};
ghost use Rattle.model.specs.Model.{Model};
ghost use Rattle.rules.specs.Render.{Accepted};
ghost use Rattle.rules.specs.Orders.{NameRule, OrderRule, ToldExactly};
ghost use Rattle.rules.specs.Outcomes.{FreeRule, FreedExactly, RenderTakes};

/// On every store a value or a glide is taken exactly when the voice is there, has the parameter and its node takes
/// the sort, whatever its floats, its shape and its space are: the node then holds the very order and nothing else
/// changes. Else it is told as 1, 2 or 3, the first that is true, and nothing changes.
pub fn an_order_is_taken_by_voice_parameter_and_sort_alone()
    ensures orders { (w : VoiceId) (name : List ℕ) (o : LastOrder) (m : Model) → OrderRule w name o m }
    ensures exactly { ToldExactly }
{}

/// The name that stands for a byte string is these bytes if they are 1 to 16, and else none.
pub fn a_name_is_its_1_to_16_bytes()
    ensures { (s : List ℕ) → NameRule s }
{}

/// On every store a free lets the voice go, tracked, fading or loose, with its nodes and their edges and nothing
/// else, and is told as 0; of a voice that is not there it is told as 1, and nothing changes.
pub fn a_free_lets_exactly_its_voice_go()
    ensures frees { (w : VoiceId) (m : Model) → FreeRule w m }
    ensures exactly { FreedExactly }
{}

/// On every store a render that is not refused takes each event before the end of its block, once, in their order,
/// and tells each as what it did on the store that those before it left: as
/// `an_order_is_taken_by_voice_parameter_and_sort_alone` and `a_free_lets_exactly_its_voice_go` say of the same order
/// or free as a call.
pub fn render_takes_each_due_event_once()
    ensures { (out : List ℕ) (m : Model) → Accepted out m → RenderTakes out m }
{}
