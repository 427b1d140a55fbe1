//! The law of rows.
ghost use Rattle.std.specs.Prelude.{◌≡◌, ℕ, Bool, List};
ghost use Rattle.definition_inline.specs.CharacterReference.{Names};
ghost use Rattle.definition_inline.specs.Inline.{Target, LinkTexts};
ghost use Rattle.event_grammar.specs.Trees.{Nodes, AreNodes, events_of};
ghost use Rattle.event_meaning.specs.Texts.{inlines_of};
ghost use Rattle.compile_rows.specs.Places.{place};
ghost use Rattle.compile_rows.specs.Rows.{rows_by};
ghost use Rattle.compile_rows.specs.Texts.{HaveEndings};
ghost use Rattle.compile_rows.specs.declared.rows.Mode.TheVariants.{Text};
ghost use Rattle.compile_written.specs.Texts.{AreTexts};
ghost use Rattle.inline_rows.specs.InlineRows.{inline_rows};

/// The rows of the events of a text, one event after another, are those of the inline structure that
/// the events spell.
pub fn rows_law()
    ensures { (names : Names) (bytes : List ℕ) (leads : Target → LinkTexts) (in_link : Bool) (ns : Nodes) →
        AreNodes ns → AreTexts bytes ns → HaveEndings bytes ns →
        rows_by names bytes leads in_link (place Text 0 0) (events_of ns) ≡ inline_rows leads (inlines_of names bytes in_link ns) }
{}
