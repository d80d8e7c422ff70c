ghost use Rattle.std.specs.Prelude.{◌≡◌, ◌↔◌, ℕ, ◌+◌, ◌<◌, ◌≤◌, ◌^◌, length, IsTrue, IsSome, IfSome, slice_index};
ghost use Rattle.casper_rec.specs.Table.{IsField, IsTable};
ghost use Rattle.casper_rec.specs.Values.{value_at, values_of, with_value, with_values, FitFields, IsOutside};

use crate::Field;
use byteorder::{ByteOrder, LittleEndian};
use casper_words::Block;
use std::marker::Model;

/// A table of numbers within a block. Contracts see the list of its fields.
#[derive(Drop)]
pub struct Rec<const N: usize> {
    fields: [Field; N],
}

impl<const N: usize> Model for Rec<N> {
    ghost use Rattle.std.specs.Prelude.{◌≡◌, List, length};
    ghost use Rattle.casper_rec.specs.declared.field.Field.{Field};
    ghost use Rattle.casper_rec.specs.Table.{IsTable};

    ghost Value = { List Field };

    ghost view = { λ rec. rec.fields };

    ghost invariant = { λ rec. (length rec.fields ≡ N) × IsTable rec.fields };
}

/// Runs a body for each field of a record, with the field's place in the table.
macro_rules! for_each_field {
    ($rec:expr, |$place:ident, $field:ident| $body:block) => {
        for $place in 0..N {
            let $field = $rec.fields[$place];
            $body
        }
    };
}

impl<const N: usize> Rec<N> {
    /// The record of these fields. There is none where a width is neither four nor eight, a field ends after the block,
    /// or a field begins before the end of the one before it.
    pub fn new(fields: [Field; N]) -> Option<Rec<N>>
        ensures exactly { IsSome result ↔ IsTable fields.entry }
        ensures fields { IfSome result (λ rec. rec ≡ fields.entry) }
    {
        if !is_table(&fields) {
            return None;
        }
        Some(Rec { fields })
    }

    /// The numbers in the fields of a block.
    pub fn read(&self, from: &Block) -> [u64; N]
        ensures values { result ≡ values_of self.now from.now }
        ensures fit { FitFields self.now result }
    {
        let mut values = [0; N];
        for_each_field!(self, |place, field| {
            values[place] = read_field(field, from.bytes());
        });
        values
    }

    /// Writes the numbers into the fields of a block. Every byte outside the fields stays.
    pub fn write(&self, values: &[u64; N], into: &mut Block)
        requires { FitFields self.now values.now }
        ensures written { into.new ≡ with_values self.now values.now into.old }
        ensures values { values_of self.now into.new ≡ values.now }
        ensures others { (place : ℕ) → IsOutside self.now place
            → slice_index into.new place ≡ slice_index into.old place }
    {
        // Before any field is written the proof wants to know that the block has 4,096 bytes.
        let _whole = into.bytes();
        for_each_field!(self, |place, field| {
            write_field(field, values[place], into);
        });
    }
}

fn is_table(fields: &[Field]) -> bool
    ensures { IsTrue result ↔ IsTable fields.now }
{
    let mut byte = 0;
    for field in fields {
        if field.offset < byte || !is_field(*field) {
            return false;
        }
        byte = field.offset + field.width;
    }
    true
}

fn is_field(field: Field) -> bool
    ensures { IsTrue result ↔ IsField field }
{
    (field.width == 4 || field.width == 8) && field.offset <= 4096 - field.width
}

fn read_field(field: Field, bytes: &[u8]) -> u64
    requires place { IsField field }
    requires block { length bytes.now ≡ 4096 }
    ensures value { result ≡ value_at bytes.now field }
    ensures fits { field.width ≡ 4 → result < 2 ^ 32 }
{
    let from = &bytes[field.offset as usize..];
    if field.width == 4 {
        LittleEndian::read_u32(from) as u64
    } else {
        LittleEndian::read_u64(from)
    }
}

fn write_field(field: Field, value: u64, into: &mut Block)
    requires place { IsField field }
    requires value { field.width ≡ 4 → value < 2 ^ 32 }
    ensures { into.new ≡ with_value into.old field value }
{
    if field.width == 4 {
        let mut bytes = [0; 4];
        LittleEndian::write_u32(&mut bytes, value as u32);
        into.put(field.offset, &bytes);
    } else {
        let mut bytes = [0; 8];
        LittleEndian::write_u64(&mut bytes, value);
        into.put(field.offset, &bytes);
    }
}

#[cfg(test)]
mod tests {
    use super::*;
    use std::test::Fail;

    const fn field(offset: u32, width: u32) -> Field
        ensures offset { result.offset ≡ offset }
        ensures width { result.width ≡ width }
    {
        Field { offset, width }
    }

    #[test]
    fn writes_and_reads(rt: HostRuntime) -> Result<(), Fail> {
        let rec = Rec::new([field(0, 8), field(8, 4), field(12, 4)]).ok_or("no table")?;
        let mut block = Block::zero(rt.alloc())?;
        let name = 0x3130524550534143;
        rec.write(&[name, 1024, 3], &mut block);
        assert_eq!(rt; &block.bytes()[..8], b"CASPER01".as_slice());
        assert_eq!(rt;
            &block.bytes()[8..17],
            [0, 4, 0, 0, 3, 0, 0, 0, 0].as_slice()
        );
        assert_eq!(rt; rec.read(&block), [name, 1024, 3]);
        Ok(())
    }

    #[test]
    fn takes_tables_alone(rt: HostRuntime) {
        assert!(rt; Rec::new([field(4088, 8)]).is_some());
        assert!(rt; Rec::new([field(4089, 8)]).is_none());
        assert!(rt; Rec::new([field(0, 6)]).is_none());
        assert!(rt; Rec::new([field(0, 8), field(7, 4)]).is_none());
    }
}
