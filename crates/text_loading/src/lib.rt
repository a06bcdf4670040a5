// The reader of texts: what passes the checks of the grammar, of declared names and of counts is written as the edition 2 file of the diagram
// that it declares, and that file is read.
#![tactic(auto)]

ghost use Rattle.std.specs.Prelude.{◌≡◌};
ghost use Rattle.files.specs.DiagramBytes.{write_diagram};
ghost use Rattle.loading.specs.Loads.{Loads};
ghost use Rattle.texts.specs.Declared.{declared};
ghost use Rattle.name_lists.specs.Names.{names_in};
ghost use Rattle.text_rows.specs.RowAt.{declarations_by};
ghost use Rattle.text_checks.specs.ValueNames.{value_names};
ghost use Rattle.text_writing.specs.Pieces.{Writable};
ghost use Rattle.text_loading.specs.LoadsText.{LoadsText};
ghost use Rattle.text_loading.specs.Read.{Known, Read};

use diagrams::ReadDiagram;
use fields::Refusal;
use name_lists::Names;
use text_outlines::{CompleteOutline, Outline};
use text_rows::State;

// The diagram of a body that passes these checks, with the names of its value types.
fn read_declared(o: &CompleteOutline, values: &Names) -> Result<ReadDiagram, Refusal>
    requires { Writable (declarations_by o.now.outline.now.body.now) × (names_in values.now ≡ value_names (declarations_by o.now.outline.now.body.now)) }
    ensures { Loads (write_diagram 2 (declared (declarations_by o.now.outline.now.body.now))) result }
{
    let types = text_checks::type_names(o);
    // In fixed memory: the file has at most 4,000 bytes, and the writer asks for 160 more.
    let mut file = [0; 4160];
    let size = text_writing::put_diagram(&mut file, o, &types, values);
    loading::read_diagram(&file[..size])
}

// What is read of a text whose body passes the checks of the grammar and of declared names.
fn read_known(text: &[u8], o: &Outline) -> Result<ReadDiagram, Refusal>
    requires { Read text.now o.now.body.now × Known o.now.body.now }
    ensures { LoadsText text.now result }
{
    // More than 52 are over some limit: 24 types, 12 enumerations, 16 associations.
    if 52 < o.count {
        return Err(Refusal::Count);
    }
    let complete = CompleteOutline { outline: o };
    if text_checks::has_many(&complete) {
        return Err(Refusal::Count);
    }
    // The value types last: they take long where there are many attributes.
    let values = text_checks::value_names(&complete);
    if 12 < values.count {
        return Err(Refusal::Count);
    }
    read_declared(&complete, &values)
}

pub fn read_text(text: &[u8]) -> Result<ReadDiagram, Refusal>
    ensures { LoadsText text.now result }
{
    if !text_rows::is_accepted(text) {
        return Err(Refusal::Grammar);
    }
    let body = text_rows::row_end(text, State::START).unwrap();
    let o = Outline::new(body);
    if o.forbidden {
        return Err(Refusal::Grammar);
    }
    if text_checks::has_unknown(&o) {
        return Err(Refusal::Undeclared);
    }
    read_known(text, &o)
}
