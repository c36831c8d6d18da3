ghost use Rattle.std.specs.Prelude.{◌≡◌, ◌≤◌, length};
ghost use Rattle.pass_stack.specs.Texts.{words_of};

use wasm_ast::features::Feature;

/// The words for a feature.
pub fn words_of(feature: Feature) -> &'static str
    ensures words { result.now ≡ words_of feature }
    ensures short { length result.now ≤ 23 }
{
    match feature {
        Feature::Floats => "floats",
        Feature::WideTable => "wide table",
        Feature::TableInitialiser => "table initialiser",
        Feature::ImportedTable => "imported table",
        Feature::ImportedTag => "imported tag",
        Feature::ImportedMutableGlobal => "imported mutable global",
        Feature::ImportedMemory => "imported memory",
        Feature::ExportedTable => "exported table",
        Feature::WideGlobal => "wide global",
        Feature::ExnrefTable => "exnref table",
        Feature::HostExnref => "host exnref",
        Feature::Sign => "sign",
        Feature::Constants => "constants",
        Feature::Multi => "multi",
        Feature::TypedSelect => "typed select",
        Feature::Simd => "simd",
        Feature::LateLanes => "late lanes",
        Feature::Tail => "tail",
        Feature::Refs => "refs",
        Feature::Tables => "tables",
        Feature::Exceptions => "exceptions",
        Feature::Bulk => "bulk",
        Feature::WideMemory => "wide memory",
        Feature::Memories => "memories",
    }
}
