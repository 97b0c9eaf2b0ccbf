//! The law of the namespace's lines.
ghost use Rattle.std.specs.Prelude.{◌≡◌, flat_map};
ghost use Rattle.fs_model.specs.Namespace.{NodeMap};
ghost use Rattle.fs_report.specs.Report.{ended, space_lines, space_text};

/// The namespace's part of a report is its lines, each with a line feed.
pub fn the_namespace_is_its_lines()
    ensures { (m : NodeMap) → space_text m ≡ flat_map ended (space_lines m) }
{}
