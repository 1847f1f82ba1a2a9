// The program but for its words and its standard input and output.
ghost use Rattle.std.specs.Prelude.{IsTrue, codes, ◌≡◌, ◌<◌, ℕ, List, map, length, string_bytes, IfOk, IfErr, IfSome, OnErr, OnOk, IsErrOf, ◌↔◌};
ghost use Rattle.std.specs.Io.KnownBytes.{Appends};
ghost use Rattle.topo_io.specs.Causes.{Rose};
ghost use Rattle.topo_draw.specs.Picture.{IsPicture};
ghost use Rattle.topo_draw.specs.Words.{AreWords};

use crate::draw::drawing;
use crate::end::{DrawEnd, TableEnd};
use crate::read::read_tables;
use std::alloc::Global;
use topo_io::{ReadEnd, Sink, Source, read_all, write_all};

/// The most bytes that are read.
const MOST: u64 = 268_435_456;

/// Whether the word asks for the features of a layer.
fn is_layer_option(word: &str) -> bool
    ensures { IsTrue result ↔ (word.now ≡ codes "--layer") }
{
    match word {
        "--layer" => true,
        _ => false,
    }
}

/// The name of the layer whose features are to be shown, where the words ask for one.
fn layer_word(words: &[String]) -> Result<Option<&[u8]>, DrawEnd>
    ensures words { OnOk result (AreWords (map string_bytes words.now)) }
    ensures others { OnErr result (AreWords (map string_bytes words.now) → ⊥) }
    ensures end { IfErr result (λ end. end ≡ DrawEnd.Words) }
{
    match words {
        [] => Ok(None),
        [option, name] => {
            if is_layer_option(option.as_str()) {
                Ok(Some(name.as_bytes()))
            } else {
                Err(DrawEnd::Words)
            }
        }
        _ => Err(DrawEnd::Words),
    }
}

/// The text that the source gives.
fn text_of<S: Source>(alloc: Global, source: &mut S) -> Result<Vec<u8>, DrawEnd>
    ensures whole { IfOk result (λ text. IfSome (S.left source.old) (λ bytes. text.items ≡ bytes)) }
    ensures fault { IsErrOf result DrawEnd.Source → Rose (S.faults source.old) (S.faults source.new) }
    ensures too_long { IsErrOf result DrawEnd.TooLong → IfSome (S.left source.old) (λ bytes. MOST < length bytes) }
    ensures words { IsErrOf result DrawEnd.Words → ⊥ }
    ensures sink { IsErrOf result DrawEnd.Sink → ⊥ }
{
    match read_all(alloc, source, MOST) {
        Ok(text) => Ok(text),
        Err(ReadEnd::Fault) => Err(DrawEnd::Source),
        Err(ReadEnd::TooLong) => Err(DrawEnd::TooLong),
        Err(ReadEnd::Memory) => Err(DrawEnd::Memory),
    }
}

/// The drawing of the tables that are this text.
fn drawing_of(alloc: Global, text: &[u8], layer: Option<&[u8]>) -> Result<String, TableEnd>
    ensures { IfOk result (λ svg. IsPicture (string_bytes svg)) }
{
    let tables = read_tables(alloc, text)?;
    drawing(alloc, &tables, layer)
}

/// Draws the tables that the source gives, and writes the drawing. Nothing is written where there is none.
pub fn run<S: Source, K: Sink>(
    alloc: Global,
    words: &[String],
    source: &mut S,
    sink: &mut K,
) -> Result<(), DrawEnd>
    ensures ok { OnOk result ((svg : List ℕ) × (IsPicture svg × Appends (K.written sink.old) (K.written sink.new) svg)) }

    // Why it ends otherwise. Which tables are no good, and that memory is short, is left open.
    ensures words { IsErrOf result DrawEnd.Words ↔ (AreWords (map string_bytes words.now) → ⊥) }
    ensures source { IsErrOf result DrawEnd.Source → Rose (S.faults source.old) (S.faults source.new) }
    ensures too_long { IsErrOf result DrawEnd.TooLong → IfSome (S.left source.old) (λ bytes. MOST < length bytes) }
    ensures sink { IsErrOf result DrawEnd.Sink → Rose (K.faults sink.old) (K.faults sink.new) }
    ensures unwritten { IfErr result (λ end. (end ≡ DrawEnd.Sink → ⊥) → sink.new ≡ sink.old) }
{
    let layer = match layer_word(words) {
        Ok(layer) => layer,
        Err(end) => return Err(end),
    };
    let text = match text_of(alloc, source) {
        Ok(text) => text,
        Err(end) => return Err(end),
    };
    let svg = match drawing_of(alloc, &text, layer) {
        Ok(svg) => svg,
        Err(end) => return Err(DrawEnd::Tables(end)),
    };
    match write_all(sink, svg.as_bytes()) {
        Ok(()) => Ok(()),
        Err(_) => Err(DrawEnd::Sink),
    }
}
