//! The models of a text.

use crate::sorts::{Direction, name_of as name_of_declaration, sort_of};
use dv_syntax::{Coupled, File, Link, Model, Name, Part};

/// The name of a model.
pub fn name_of(model: &Model) -> Name {
    match model {
        Model::Atomic(atomic) => atomic.name,
        Model::Coupled(coupled) => coupled.name,
    }
}

/// The model that encloses an offset, in bytes. After the models it is the last one.
pub fn model_around(file: &File, offset: u32) -> Option<&Model> {
    for model in file.models.iter().rev() {
        if name_of(model).offset <= offset {
            return Some(model);
        }
    }
    None
}

/// The first model with the name of this number.
pub fn model_named(file: &File, number: u32) -> Option<&Model> {
    for model in &file.models {
        if name_of(model).number == number {
            return Some(model);
        }
    }
    None
}

/// The part whose model is named at an offset.
pub fn part_of_model_at(model: &Coupled, offset: u32) -> Option<&Part> {
    for part in &model.parts {
        if part.model.offset == offset {
            return Some(part);
        }
    }
    None
}

/// The first part with the name of this number.
pub fn part_named(model: &Coupled, number: u32) -> Option<&Part> {
    for part in &model.parts {
        if part.name.number == number {
            return Some(part);
        }
    }
    None
}

/// The link whose word `link` is at an offset.
pub fn link_at(model: &Coupled, offset: u32) -> Option<&Link> {
    for link in &model.links {
        if link.offset == offset {
            return Some(link);
        }
    }
    None
}

/// The direction of the first port with the name of this number.
pub fn port_direction(model: &Model, number: u32) -> Option<Direction> {
    match model {
        Model::Atomic(atomic) => {
            for declaration in &atomic.declarations {
                if name_of_declaration(declaration).number == number {
                    return sort_of(declaration).direction();
                }
            }
            None
        }
        Model::Coupled(coupled) => {
            let input = offset_of(&coupled.inputs, number);
            let output = offset_of(&coupled.outputs, number);
            match (input, output) {
                (None, None) => None,
                (Some(_), None) => Some(Direction::Input),
                (None, Some(_)) => Some(Direction::Output),
                (Some(input), Some(output)) => Some(if input < output {
                    Direction::Input
                } else {
                    Direction::Output
                }),
            }
        }
    }
}

/// The offset of the first name of this number.
fn offset_of(names: &[Name], number: u32) -> Option<u32> {
    for name in names {
        if name.number == number {
            return Some(name.offset);
        }
    }
    None
}
