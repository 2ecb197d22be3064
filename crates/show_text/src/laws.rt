//! The law of scripts. It has no code: a call gives the law to its caller's proof.
ghost use Rattle.std.specs.Prelude.{◌≡◌, ◌≤◌, ℕ, List, true, Ok, length};
ghost use Rattle.std.specs.List.{list_all};
ghost use Rattle.show_text.specs.declared.command.Command.{Command as CommandOf};
ghost use Rattle.show_text.specs.Script.{script_of};
ghost use Rattle.show_text.specs.Written.{can_be_asked, script_text};

/// Commands written as a script are read back unchanged, unless the text is too long.
pub fn written_is_read()
    ensures script { (lines nodes : ℕ) (commands : List CommandOf) → lines ≤ 256 → nodes ≤ 64
        → list_all (can_be_asked lines nodes) commands ≡ true
        → length (script_text nodes commands) ≤ 1048576
        → script_of lines nodes (script_text nodes commands) ≡ Ok commands }
{}
