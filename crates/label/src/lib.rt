// One label of 80 bytes: its kind, its fields and their rules, what two labels have in common, and the making of labels.
// It knows nothing of the order of labels, nor of the blocks between them.

#![tactic(auto)]

mod compared; // compared.rt: two labels
mod field; // field.rt: the fields of a label and their rules
mod judged; // judged.rt: one label by itself
mod made; // made.rt: the labels that the writer makes
mod name; // name.rt: the kind of a label
mod rows; // rows.rt: the one walk over the fields of a label
mod table; // table.rt: the fields of each label
mod within; // within.rt: the field in which a byte stands

pub use compared::{
    unequal_section_first, unequal_section_second, unequal_trailer_first, unequal_trailer_second,
};
pub use field::{
    block_length, count_of, format_of, offset_length, record_length, section_of, sequence_of,
    set_of, volume_of,
};
pub use judged::label_fault;
pub use made::{first_label, second_label, volume_label};
pub use name::kind;
pub use table::{
    BLOCK_LENGTH_IN, BLOCK_LENGTH_WIDTH, COUNT_BP, DATED_WIDTH, ENTRY, FORMAT_IN, FORMATTED_WIDTH,
    GENERATION, GENERATION_IN, IDENTIFIER, IDENTIFIER_IN, IDENTIFIER_WIDTH, RECORD_FORMAT,
    RECORD_FORMAT_WIDTH, SECTION_BP, SEQUENCE_BP, SET_BP, SIZE_IN, SIZE_WIDTH, VOLUME, VOLUME_BP,
};
pub use within::field_with;
