use crate::{Name, Placed, Quoted, Reserved, Sign, Token, read_tokens};
use std::alloc::Global;
use std::test::Fail;

#[test]
fn words_and_signs_are_written_as_the_format_says(rt: HostRuntime) -> Result<(), Fail> {
    let words = [
        (Reserved::From, "from"),
        (Reserved::Where, "where"),
        (Reserved::By, "by"),
        (Reserved::Show, "show"),
        (Reserved::Between, "between"),
        (Reserved::Fold, "fold"),
    ];
    for (word, text) in words {
        assert_eq!(rt; word.text(), text);
    }
    let signs = [
        (Sign::Unequal, "<>"),
        (Sign::LessEqual, "<="),
        (Sign::GreaterEqual, ">="),
        (Sign::OpenBracket, "["),
        (Sign::Dot, "."),
    ];
    for (sign, text) in signs {
        assert_eq!(rt; sign.text(), text);
    }
    Ok(())
}

#[test]
fn a_name_and_a_text_are_copied(rt: HostRuntime) -> Result<(), Fail> {
    let alloc = rt.alloc();
    let name = Name::of(String::from_str(alloc, "region")?);
    assert_eq!(rt; name.copied(alloc)?.as_str(), "region");
    let quoted = Quoted::of(String::from_str(alloc, "EUROPE")?);
    assert_eq!(rt; quoted.copied(alloc)?.as_str(), "EUROPE");
    Ok(())
}

#[test]
fn a_token_keeps_where_it_begins(rt: HostRuntime) -> Result<(), Fail> {
    let placed = Placed {
        token: Token::Word(Reserved::From),
        at: 7,
    };
    assert_eq!(rt; placed.at, 7);
    Ok(())
}

// The tokens of a text as one line: each with its kind and place, and where they stop: `|` where the text ends, else `!`.
fn shown(alloc: Global, text: &str) -> Result<String, Fail> {
    if text.len() > 1024 {
        return Ok(String::from_str(alloc, "too long")?);
    }
    let list = read_tokens(alloc, text)?;
    let mut line = String::new(alloc);
    for placed in list.placed() {
        let at = placed.at;
        let token = match &placed.token {
            Token::Name(name) => {
                let name = name.as_str();
                format!(in alloc; "name:{name}@{at} ")?
            }
            Token::Word(word) => {
                let word = word.text();
                format!(in alloc; "word:{word}@{at} ")?
            }
            Token::Date { year, month, day } => {
                format!(in alloc; "date:{year}/{month}/{day}@{at} ")?
            }
            Token::Number { units, decimals } => {
                format!(in alloc; "number:{units}/{decimals}@{at} ")?
            }
            Token::Text(text) => {
                let text = text.as_str();
                format!(in alloc; "text:{text}@{at} ")?
            }
            Token::Sign(sign) => {
                let sign = sign.text();
                format!(in alloc; "sign:{sign}@{at} ")?
            }
        };
        line.push_str(token.as_str())?;
    }
    let stop = if list.is_whole() { "|" } else { "!" };
    let end = list.end();
    line.push_str(format!(in alloc; "{stop}{end}")?.as_str())?;
    Ok(line)
}

#[test]
fn names_words_and_signs(rt: HostRuntime) -> Result<(), Fail> {
    let alloc = rt.alloc();
    let cases = [
        ("", "|0"),
        ("   ", "|3"),
        ("from a", "word:from@0 name:a@5 |6"),
        ("  a  ", "name:a@2 |5"),
        (
            "fromx from_ from1",
            "name:fromx@0 name:from_@6 name:from1@12 |17",
        ),
        ("a_1", "name:a_1@0 |3"),
        ("1a", "number:1/0@0 name:a@1 |2"),
        ("_a", "!0"),
        ("A", "!0"),
        ("a B", "name:a@0 !2"),
        (
            "abcdefghijklmnopqrstuvwxyz123456",
            "name:abcdefghijklmnopqrstuvwxyz123456@0 |32",
        ),
        (
            "abcdefghijklmnopqrstuvwxyzabcdefg",
            "name:abcdefghijklmnopqrstuvwxyzabcdef@0 name:g@32 |33",
        ),
        ("<><=<>=", "sign:<>@0 sign:<=@2 sign:<>@4 sign:=@6 |7"),
        ("< = >=>", "sign:<@0 sign:=@2 sign:>=@4 sign:>@6 |7"),
        (
            "()[],.*+-/",
            "sign:(@0 sign:)@1 sign:[@2 sign:]@3 sign:,@4 sign:.@5 sign:*@6 sign:+@7 sign:-@8 !9",
        ),
        ("a!=b", "name:a@0 !1"),
        ("a\nb", "name:a@0 !1"),
        ("a\tb", "name:a@0 !1"),
    ];
    for (text, line) in cases {
        let read = shown(alloc, text)?;
        assert_eq!(rt; read.as_str(), line, "of {text}");
    }
    Ok(())
}

#[test]
fn dates_are_tried_before_numbers(rt: HostRuntime) -> Result<(), Fail> {
    let alloc = rt.alloc();
    let cases = [
        ("1998-12-01", "date:1998/12/1@0 |10"),
        (
            "1998-12-01-90",
            "date:1998/12/1@0 sign:-@10 number:90/0@11 |13",
        ),
        ("1998-12-011", "date:1998/12/1@0 number:1/0@10 |11"),
        (
            "1998-12-01.5",
            "date:1998/12/1@0 sign:.@10 number:5/0@11 |12",
        ),
        (
            "1995-13-01",
            "number:1995/0@0 sign:-@4 number:13/0@5 sign:-@7 number:1/0@8 |10",
        ),
        (
            "1994-02-30",
            "number:1994/0@0 sign:-@4 number:2/0@5 sign:-@7 number:30/0@8 |10",
        ),
        ("1996-02-29", "date:1996/2/29@0 |10"),
        ("2000-02-29", "date:2000/2/29@0 |10"),
        (
            "1900-02-29",
            "number:1900/0@0 sign:-@4 number:2/0@5 sign:-@7 number:29/0@8 |10",
        ),
        ("0000-04-30", "date:0/4/30@0 |10"),
        (
            "1998-04-31",
            "number:1998/0@0 sign:-@4 number:4/0@5 sign:-@7 number:31/0@8 |10",
        ),
        (
            "1998-12-1",
            "number:1998/0@0 sign:-@4 number:12/0@5 sign:-@7 number:1/0@8 |9",
        ),
        (
            "11998-12-01",
            "number:11998/0@0 sign:-@5 number:12/0@6 sign:-@8 number:1/0@9 |11",
        ),
    ];
    for (text, line) in cases {
        let read = shown(alloc, text)?;
        assert_eq!(rt; read.as_str(), line, "of {text}");
    }
    Ok(())
}

#[test]
fn the_longest_number_is_taken(rt: HostRuntime) -> Result<(), Fail> {
    let alloc = rt.alloc();
    let cases = [
        ("0.5", "number:5/1@0 |3"),
        ("007", "number:7/0@0 |3"),
        ("1.", "number:1/0@0 sign:.@1 |2"),
        (".5", "sign:.@0 number:5/0@1 |2"),
        ("1 .5", "number:1/0@0 sign:.@2 number:5/0@3 |4"),
        ("1.2.3", "number:12/1@0 sign:.@3 number:3/0@4 |5"),
        ("1.1234", "number:11234/4@0 |6"),
        ("1.12345", "number:11234/4@0 number:5/0@6 |7"),
        ("999999999999.9999", "number:9999999999999999/4@0 |17"),
        ("123456789012", "number:123456789012/0@0 |12"),
        ("1234567890123", "number:123456789012/0@0 number:3/0@12 |13"),
        (
            "1234567890123.5",
            "number:123456789012/0@0 number:35/1@12 |15",
        ),
        ("-1", "sign:-@0 number:1/0@1 |2"),
    ];
    for (text, line) in cases {
        let read = shown(alloc, text)?;
        assert_eq!(rt; read.as_str(), line, "of {text}");
    }
    Ok(())
}

#[test]
fn a_text_is_whole_between_its_quotes(rt: HostRuntime) -> Result<(), Fail> {
    let alloc = rt.alloc();
    let cases = [
        ("''", "text:@0 |2"),
        ("'a b'", "text:a b@0 |5"),
        ("'from'", "text:from@0 |6"),
        ("'a''b'", "text:a@0 text:b@3 |6"),
        ("a='b'", "name:a@0 sign:=@1 text:b@2 |5"),
        ("'abc", "!0"),
        ("a 'b", "name:a@0 !2"),
        ("'", "!0"),
        ("'a\nb'", "!0"),
        ("'a\0b'", "!0"),
        ("'caf\u{e9}'x", "text:caf\u{e9}@0 name:x@7 |8"),
        ("caf\u{e9}", "name:caf@0 !3"),
        ("'caf\u{e9}", "!0"),
        ("a \u{20ac}", "name:a@0 !2"),
    ];
    for (text, line) in cases {
        let read = shown(alloc, text)?;
        assert_eq!(rt; read.as_str(), line, "of {text}");
    }
    Ok(())
}

#[test]
fn every_reserved_word_is_no_name(rt: HostRuntime) -> Result<(), Fail> {
    let alloc = rt.alloc();
    let words =
        "from where by show sort first as and or not between desc sum avg min max count fold";
    let list = read_tokens(alloc, words)?;
    assert!(rt; list.is_whole());
    assert_eq!(rt; list.placed().len(), 18);
    for (place, placed) in list.placed().iter().enumerate() {
        match &placed.token {
            Token::Word(word) => assert_eq!(rt; usize::from(word.code()), place),
            _ => assert!(rt; false),
        }
    }
    Ok(())
}
