//! Laws of the messages sent to a page. They have no code: a call gives the law to its caller's
//! proof.
ghost use Rattle.std.specs.Prelude.{◌≡◌, ◌++◌, [], List, ℕ};
ghost use Rattle.web.specs.Messages.{held_along, messages_along, messages_of};

/// Bytes taken one after another, in pieces of any size, become the messages of the lines that end
/// in them.
pub fn lines_are_messages()
    ensures whole { (text : List ℕ) → messages_along [] text ≡ messages_of text }
    // A piece continues the line that earlier pieces began.
    ensures pieces { (front back : List ℕ)
        → messages_along [] (front ++ back)
        ≡ messages_along [] front ++ messages_along (held_along [] front) back }
    ensures held { (front back : List ℕ)
        → held_along [] (front ++ back) ≡ held_along (held_along [] front) back }
{}
