//! Writes a drawing. Writing takes no memory.

ghost use Rattle.std.specs.Prelude.{◌++◌};
ghost use Rattle.std.specs.List.{flat_map};
ghost use Rattle.byte_streams.specs.Written.{Took};
ghost use Rattle.drawing.specs.Elements.{row_text, window_text};
ghost use Rattle.drawing.specs.Pictures.{body_text, colour_of, document_text, end_text, entry_text, head_text, layer_text, legend_text, mark_text, mark_text_on};

use crate::elements::{class_element, row_element, window_element};
use crate::layers::{Layer, all_layers};
use crate::maps::{around, map_start};
use crate::marks::Mark;
use crate::pictures::colour_of;
use byte_streams::{WriteFailed, write_whole};
use features::{Feature, Name};
use plane::{Frame, Shape};
use std::io::Write;

/// The start of the document: a page, and on it the map.
const START: &[u8] =
    b"<svg xmlns=\"http://www.w3.org/2000/svg\" version=\"1.1\" width=\"1420\" height=\"1000\" viewBox=\"0 0 1420 1000\">\n<rect width=\"1420\" height=\"1000\" fill=\"#ffffff\"/>\n<svg x=\"40\" y=\"40\" width=\"920\" height=\"920\" overflow=\"visible\" viewBox=\"";

/// The end of the legend and of the document.
const END: &[u8] = b"</text>\n</svg>\n";

/// Writes the start of the document.
fn write_head<W: Write>(area: Frame, writer: &mut W) -> Result<(), WriteFailed>
    ensures { Took result (W.contents writer.old) (W.contents writer.new) (head_text area) }
{
    write_whole(START, writer)?;
    write_whole(map_start(area).as_slice(), writer)
}

/// Writes the element of a window.
fn write_window<W: Write>(window: &Shape, writer: &mut W) -> Result<(), WriteFailed>
    ensures { Took result (W.contents writer.old) (W.contents writer.new)
        (window_text window.now) }
{
    write_whole(window_element(window).as_slice(), writer)
}

/// Writes the element of a feature.
fn write_row<W: Write>(
    classes: &[Name],
    feature: &Feature,
    writer: &mut W,
) -> Result<(), WriteFailed>
    ensures { Took result (W.contents writer.old) (W.contents writer.new)
        (row_text (colour_of classes.now feature.now.class) feature.now) }
{
    let colour = colour_of(classes, &feature.class);
    write_whole(row_element(feature, colour).as_slice(), writer)
}

/// Writes the element of a mark.
fn write_mark<W: Write>(classes: &[Name], mark: &Mark, writer: &mut W) -> Result<(), WriteFailed>
    ensures { Took result (W.contents writer.old) (W.contents writer.new)
        (mark_text classes.now mark.now) }
{
    match mark {
        Mark::Window(window) => write_window(window, writer),
        Mark::Row(feature) => write_row(classes, feature, writer),
    }
}

/// Writes the element of a mark that is on this layer.
fn write_mark_on<W: Write>(
    classes: &[Name],
    layer: &Layer,
    mark: &Mark,
    writer: &mut W,
) -> Result<(), WriteFailed>
    ensures { Took result (W.contents writer.old) (W.contents writer.new)
        (mark_text_on classes.now layer.now mark.now) }
{
    if layer.has(mark) {
        write_mark(classes, mark, writer)
    } else {
        Ok(())
    }
}

/// Writes the elements of the marks on a layer.
fn write_layer<W: Write>(
    classes: &[Name],
    marks: &[Mark],
    layer: &Layer,
    writer: &mut W,
) -> Result<(), WriteFailed>
    ensures { Took result (W.contents writer.old) (W.contents writer.new)
        (layer_text classes.now marks.now layer.now) }
{
    for mark in marks {
        write_mark_on(classes, layer, mark, writer)?;
    }
    Ok(())
}

/// Writes the elements of these layers, one layer after another.
fn write_layers<W: Write>(
    classes: &[Name],
    marks: &[Mark],
    layers: &[Layer],
    writer: &mut W,
) -> Result<(), WriteFailed>
    ensures { Took result (W.contents writer.old) (W.contents writer.new)
        (flat_map (layer_text classes.now marks.now) layers.now) }
{
    for layer in layers {
        write_layer(classes, marks, layer, writer)?;
    }
    Ok(())
}

/// Writes the element of a class in the legend.
fn write_class<W: Write>(classes: &[Name], class: &Name, writer: &mut W) -> Result<(), WriteFailed>
    ensures { Took result (W.contents writer.old) (W.contents writer.new)
        (entry_text classes.now class.now) }
{
    let colour = colour_of(classes, class);
    write_whole(class_element(class, colour).as_slice(), writer)
}

/// Writes the elements of all classes of the legend.
fn write_classes<W: Write>(classes: &[Name], writer: &mut W) -> Result<(), WriteFailed>
    ensures { Took result (W.contents writer.old) (W.contents writer.new)
        (flat_map (entry_text classes.now) classes.now) }
{
    for class in classes {
        write_class(classes, class, writer)?;
    }
    Ok(())
}

/// Writes the classes of the legend, and the end of the document.
fn write_end<W: Write>(classes: &[Name], writer: &mut W) -> Result<(), WriteFailed>
    ensures { Took result (W.contents writer.old) (W.contents writer.new)
        (flat_map (entry_text classes.now) classes.now ++ end_text) }
{
    write_classes(classes, writer)?;
    write_whole(END, writer)
}

/// Writes what is beside the map, and the end of the document.
fn write_legend<W: Write>(area: Frame, classes: &[Name], writer: &mut W) -> Result<(), WriteFailed>
    ensures { Took result (W.contents writer.old) (W.contents writer.new)
        (legend_text area classes.now) }
{
    write_whole(around(area).as_slice(), writer)?;
    write_end(classes, writer)
}

/// Writes the marks, layer by layer, and what follows them.
fn write_body<W: Write>(
    area: Frame,
    classes: &[Name],
    marks: &[Mark],
    writer: &mut W,
) -> Result<(), WriteFailed>
    ensures { Took result (W.contents writer.old) (W.contents writer.new)
        (body_text area classes.now marks.now) }
{
    write_layers(classes, marks, all_layers().as_slice(), writer)?;
    write_legend(area, classes, writer)
}

/// Writes the document that shows these marks in this frame, with the colours of these classes.
/// Takes no memory. An error is the writer's.
pub(crate) fn write_document<W: Write>(
    area: Frame,
    classes: &[Name],
    marks: &[Mark],
    writer: &mut W,
) -> Result<(), WriteFailed>
    ensures { Took result (W.contents writer.old) (W.contents writer.new)
        (document_text area classes.now marks.now) }
{
    write_head(area, writer)?;
    write_body(area, classes, marks, writer)
}
