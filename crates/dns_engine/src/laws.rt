//! A law of published versions, the contract of a function that does nothing.
ghost use Rattle.std.specs.Prelude.{◌≡◌, List};
ghost use Rattle.dns_rdata.specs.Record.{Record};
ghost use Rattle.zone_tree.specs.Version.{Version};
ghost use Rattle.cell_core.specs.declared.words.Version.{Version as Numbered};
ghost use Rattle.counted_handles.specs.History.{IsHistory};
ghost use Rattle.snapshot_cell.specs.Tokens.{IsLastOf};
ghost use Rattle.dns_engine.specs.Versions.{IsFirst, IsNext};
ghost use Rattle.dns_engine.specs.Held.{IsLatest};
ghost use Rattle.dns_engine.specs.Replayed.{IsReplay};

/// The last of published versions, as it is loaded, is the first zone with updates replayed, as many as its number among those
/// published, each of which changed the zone (RFC 2136, 3).
pub fn published_versions_are_replays()
    ensures number { (first : List Record) (published : List Version) (version : Numbered Version) → IsHistory (IsFirst first) IsNext published → IsLastOf published version → version.value.number ≡ version.number }
    ensures replay { (first : List Record) (published : List Version) (version : Numbered Version) → IsHistory (IsFirst first) IsNext published → IsLastOf published version → IsReplay first version.value }
    ensures latest { (first : List Record) (published : List Version) (version : Numbered Version) → IsHistory (IsFirst first) IsNext published → IsLastOf published version → IsLatest first published version.value }
{}
