// The keys of the tables of a declaration.
ghost use Rattle.std.specs.Prelude.{◌≡◌};
ghost use Rattle.toml.specs.View.{view, table_view, array_view};
ghost use Rattle.decl.specs.Keys.{shape_of, has_shape, are_texts, has_other_key, has_other_shape, lacks_key, lacks_one, table_causes};
ghost use Rattle.decl.specs.Causes.{Tells};

use crate::cause::Cause;
use crate::values::value_at;
use toml::{Table, Value};

// What a table of a declaration is.
#[derive(Clone, Copy, Debug, PartialEq, Eq)]
pub(crate) enum Form {
    // The document itself.
    Document,
    // A host.
    Host,
    // A clock of a host.
    Clock,
    // A label.
    Label,
    // A link.
    Link,
}

// What the value of a key has to be.
#[derive(Clone, Copy, Debug, PartialEq, Eq)]
pub(crate) enum Shape {
    // A whole number.
    Whole,
    // A text.
    Text,
    // An array of texts.
    Texts,
    // An array.
    Array,
    // A table.
    Table,
    // True or false.
    Flag,
}

// The shape that a table of this form asks of a key's value; None for a key that it may not have.
fn shape_of(form: Form, key: &str) -> Option<Shape>
    ensures { result ≡ shape_of form key.now }
{
    match form {
        Form::Document => document_shape(key),
        Form::Host => host_shape(key),
        Form::Clock => clock_shape(key),
        Form::Label => label_shape(key),
        Form::Link => link_shape(key),
    }
}

fn document_shape(key: &str) -> Option<Shape>
    ensures { result ≡ shape_of Form.Document key.now }
{
    match key {
        "hosts" | "labels" => Some(Shape::Table),
        "links" => Some(Shape::Array),
        "payload_bytes" | "window" => Some(Shape::Whole),
        "source" => Some(Shape::Text),
        "tcp_options" | "fragments" => Some(Shape::Flag),
        _ => None,
    }
}

fn host_shape(key: &str) -> Option<Shape>
    ensures { result ≡ shape_of Form.Host key.now }
{
    match key {
        "short" | "long" | "early" | "late" | "offset" => Some(Shape::Whole),
        "addresses" | "addresses6" => Some(Shape::Texts),
        "clocks" => Some(Shape::Array),
        _ => None,
    }
}

fn clock_shape(key: &str) -> Option<Shape>
    ensures { result ≡ shape_of Form.Clock key.now }
{
    match key {
        "name" => Some(Shape::Text),
        "short" | "long" | "early" | "late" | "gap" | "offset" => Some(Shape::Whole),
        _ => None,
    }
}

fn label_shape(key: &str) -> Option<Shape>
    ensures { result ≡ shape_of Form.Label key.now }
{
    match key {
        "host" | "kind" | "clock" | "segment" => Some(Shape::Text),
        "early" | "late" | "interface" => Some(Shape::Whole),
        "addresses" | "addresses6" | "beyond" | "beyond6" => Some(Shape::Texts),
        _ => None,
    }
}

fn link_shape(key: &str) -> Option<Shape>
    ensures { result ≡ shape_of Form.Link key.now }
{
    match key {
        "from" | "to" => Some(Shape::Text),
        "least" | "most" => Some(Shape::Whole),
        _ => None,
    }
}

impl Shape {
    fn fits(self, value: &Value) -> bool
        ensures { result ≡ has_shape self (view value.now) }
    {
        match (self, value) {
            (Shape::Whole, Value::Integer(_))
            | (Shape::Text, Value::String(_))
            | (Shape::Array, Value::Array(_))
            | (Shape::Table, Value::Table(_))
            | (Shape::Flag, Value::Boolean(_)) => true,
            (Shape::Texts, Value::Array(items)) => are_texts(items),
            _ => false,
        }
    }
}

fn are_texts(items: &Vec<Value>) -> bool
    ensures { result ≡ are_texts (array_view items.now) }
{
    for item in items {
        if !item.is_str() {
            return false;
        }
    }
    true
}

// Whether the table has a key that it may not have.
fn has_other_key(form: Form, table: &Table) -> bool
    ensures { result ≡ has_other_key form (table_view table.now) }
{
    for (key, _) in table {
        if shape_of(form, key).is_none() {
            return true;
        }
    }
    false
}

// Whether the value of a key has another shape than the form asks for.
fn has_other_shape(form: Form, table: &Table) -> bool
    ensures { result ≡ has_other_shape form (table_view table.now) }
{
    for (key, value) in table {
        if let Some(shape) = shape_of(form, key) {
            if !shape.fits(value) {
                return true;
            }
        }
    }
    false
}

// Whether a key of the table is not there.
pub(crate) fn lacks_one(table: &Table, key: &str) -> bool
    ensures { result ≡ lacks_one key.now (table_view table.now) }
{
    value_at(table, key).is_none()
}

// Whether the table lacks a key that the form wants.
fn lacks_key(form: Form, table: &Table) -> bool
    ensures { result ≡ lacks_key form (table_view table.now) }
{
    match form {
        Form::Document | Form::Host => false,
        Form::Clock => lacks_one(table, "name"),
        Form::Label => lacks_one(table, "host") || lacks_one(table, "kind"),
        Form::Link => lacks_one(table, "from") || lacks_one(table, "to"),
    }
}

// Looks through the keys of a table of this form, and then through their values' shapes.
pub(crate) fn check_table(form: Form, table: &Table) -> Result<(), Cause>
    ensures { Tells (table_causes form (table_view table.now)) tt result }
{
    if has_other_key(form, table) || lacks_key(form, table) {
        return Err(Cause::Key);
    }
    if has_other_shape(form, table) {
        return Err(Cause::Shape);
    }
    Ok(())
}
