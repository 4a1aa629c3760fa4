// Edges of reading numbers from a text.
use crate::shown::reads;
use numerals::{BadText, read_numbers};
use std::test::Fail;

#[test]
fn words_are_numbers_of_32_bits(rt: HostRuntime) -> Result<(), Fail> {
    let heap = rt.alloc();
    let numbers = read_numbers(heap, " 7\n-2147483648\t2147483647  +1 ")?;
    assert_eq!(rt;
        numbers.as_slice(),
        [7, -2147483648, 2147483647, 1].as_slice()
    );
    for (text, word) in [("2147483648", 0), ("1 2 x 4", 2), ("1 -", 1)] {
        let refused = read_numbers(heap, text).err();
        assert_eq!(rt; refused, Some(BadText::NotANumber(word)));
    }
    let none = read_numbers(heap, " \n ")?;
    assert!(rt; none.is_empty());
    reads(&rt, heap, BadText::NotANumber(4), "word 4 is not a number")
}
