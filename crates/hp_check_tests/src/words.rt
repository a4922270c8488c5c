// The words, the signs and the numbers, by their texts.

use hp_script::token::{Keyword, Sign, number_of};
use hp_script::tree::BinOp;
use std::test::*;

#[test]
fn words(rt: HostRuntime) {
    assert_eq!(rt; Keyword::of(b"if"), Some(Keyword::If));
    assert_eq!(rt; Keyword::of(b"else"), Some(Keyword::Else));
    assert_eq!(rt; Keyword::of(b"end"), Some(Keyword::End));
    assert_eq!(rt; Keyword::of(b"while"), Some(Keyword::While));
    assert_eq!(rt; Keyword::of(b"true"), Some(Keyword::True));
    assert_eq!(rt; Keyword::of(b"false"), Some(Keyword::False));
    assert_eq!(rt; Keyword::of(b"println"), Some(Keyword::Println));
    assert_eq!(rt; Keyword::of(b"write_csv"), Some(Keyword::WriteCsv));
    assert_eq!(rt; Keyword::of(b"iffy"), None);
    assert_eq!(rt; Keyword::of(b""), None);
}

#[test]
fn signs(rt: HostRuntime) {
    assert_eq!(rt; Sign::of(b"-"), Some(Sign::Operator(BinOp::Sub, false)));
    assert_eq!(rt; Sign::of(b">="), Some(Sign::Operator(BinOp::Ge, false)));
    assert_eq!(rt; Sign::of(b"||"), Some(Sign::Operator(BinOp::Or, false)));
    assert_eq!(rt; Sign::of(b".|"), Some(Sign::Operator(BinOp::BitOr, true)));
    assert_eq!(rt; Sign::of(b".!="), Some(Sign::Operator(BinOp::Ne, true)));
    assert_eq!(rt; Sign::of(b"!"), Some(Sign::Not(false)));
    assert_eq!(rt; Sign::of(b".!"), Some(Sign::Not(true)));
    assert_eq!(rt; Sign::of(b"->"), Some(Sign::Arrow));
    assert_eq!(rt; Sign::of(b"."), Some(Sign::Dot));
    assert_eq!(rt; Sign::of(b"&"), None);
    assert_eq!(rt; Sign::of(b".&&"), None);
}

#[test]
fn numbers(rt: HostRuntime) {
    assert_eq!(rt; number_of(b"007"), Some(7));
    assert_eq!(rt; number_of(b"9223372036854775807"), Some(i64::MAX));
    assert_eq!(rt; number_of(b"9223372036854775808"), None);
    assert_eq!(rt; number_of(b"18446744073709551617"), None);
}
