//! The tokens of a text as the parser takes them.

ghost use Rattle.std.specs.Prelude.{◌≡◌, ◌≤◌, IfOk, length, map, slice_range};
ghost use Rattle.c_tree.specs.Grammar.Symbols as symbols;
ghost use Rattle.c_tree.specs.Grammar.Texts as texts;
ghost use Rattle.c_lexer.specs.Answers.{AreInOrder};
ghost use Rattle.expression_parser.specs.Terminals.{seen, all_seen};
ghost use Rattle.c_parser.specs.Spellings.{rows, symbol_or_place};

use c_tree::{OutOfMemory, Symbol, Token, TokenKind};
use expression_parser::Terminal;
use std::alloc::Global;

/// The words that are no names.
const WORDS: [(&[u8], Symbol); 16] = [
    (b"void", Symbol::Void),
    (b"int64_t", Symbol::Int64),
    (b"uint64_t", Symbol::Uint64),
    (b"const", Symbol::Const),
    (b"for", Symbol::For),
    (b"if", Symbol::If),
    (b"else", Symbol::Else),
    (b"unsigned", Symbol::Unsigned),
    (b"__int128", Symbol::Int128),
    (b"return", Symbol::Return),
    (b"umin", Symbol::Umin),
    (b"umax", Symbol::Umax),
    (b"calloc", Symbol::Calloc),
    (b"bal_min", Symbol::BalMin),
    (b"bal_max", Symbol::BalMax),
    (b"bal_wide", Symbol::BalWide),
];

const MARKS: [(&[u8], Symbol); 35] = [
    (b"(", Symbol::OpenParen),
    (b")", Symbol::CloseParen),
    (b"[", Symbol::OpenBracket),
    (b"]", Symbol::CloseBracket),
    (b"{", Symbol::OpenBrace),
    (b"}", Symbol::CloseBrace),
    (b";", Symbol::Semicolon),
    (b",", Symbol::Comma),
    (b"=", Symbol::Assign),
    (b"+=", Symbol::AddAssign),
    (b"-=", Symbol::SubAssign),
    (b"*=", Symbol::MulAssign),
    (b"&=", Symbol::AndAssign),
    (b"|=", Symbol::OrAssign),
    (b"^=", Symbol::XorAssign),
    (b"+", Symbol::Plus),
    (b"-", Symbol::Minus),
    (b"*", Symbol::Star),
    (b"/", Symbol::Slash),
    (b"%", Symbol::Percent),
    (b"&", Symbol::Ampersand),
    (b"|", Symbol::Bar),
    (b"^", Symbol::Caret),
    (b"~", Symbol::Tilde),
    (b"<<", Symbol::ShiftLeft),
    (b">>", Symbol::ShiftRight),
    (b"<", Symbol::Less),
    (b"<=", Symbol::LessEqual),
    (b">", Symbol::Greater),
    (b">=", Symbol::GreaterEqual),
    (b"==", Symbol::EqualEqual),
    (b"!=", Symbol::NotEqual),
    (b"&&", Symbol::AndAnd),
    (b"++", Symbol::PlusPlus),
    (b"--", Symbol::MinusMinus),
];

/// The symbol that the table has for these bytes.
fn symbol_among(table: &[(&[u8], Symbol)], bytes: &[u8]) -> Option<Symbol>
    ensures { result ≡ texts.find_symbol (rows table.entry.now) bytes.now }
{
    for (spelling, symbol) in table {
        if *spelling == bytes {
            return Some(*symbol);
        }
    }
    None
}

fn word_symbol(bytes: &[u8]) -> Option<Symbol>
    ensures { result ≡ texts.find_symbol symbols.words bytes.now }
{
    symbol_among(&WORDS, bytes)
}

fn mark_symbol(bytes: &[u8]) -> Option<Symbol>
    ensures { result ≡ texts.find_symbol symbols.marks bytes.now }
{
    symbol_among(&MARKS, bytes)
}

/// The symbol, or the name at the token's place.
fn symbol_or_name(symbol: Option<Symbol>, token: &Token) -> Terminal
    ensures { result ≡ symbol_or_place symbol token.now.start token.now.end }
{
    match symbol {
        Some(symbol) => Terminal::Symbol(symbol),
        None => Terminal::Name(token.start, token.end),
    }
}

fn terminal(text: &[u8], token: &Token) -> Terminal
    requires ordered { token.now.start ≤ token.now.end }
    requires within { token.now.end ≤ length text.now }
    ensures { seen text.now result ≡ texts.lexeme text.now token.now }
{
    let bytes = &text[token.start as usize..token.end as usize];
    match token.kind {
        TokenKind::Word => symbol_or_name(word_symbol(bytes), token),
        TokenKind::Mark => symbol_or_name(mark_symbol(bytes), token),
        TokenKind::Literal(n) => Terminal::Literal(n),
        TokenKind::Directive => Terminal::Symbol(Symbol::Directive),
        TokenKind::EndLine => Terminal::Symbol(Symbol::EndLine),
        TokenKind::Preamble => Terminal::Symbol(Symbol::Preamble),
    }
}

/// All tokens of a text.
pub fn terminals(alloc: Global, text: &[u8], tokens: &[Token]) -> Result<Vec<Terminal>, OutOfMemory>
    requires { AreInOrder 0 tokens.now (length text.now) }
    ensures { IfOk result (λ ts. all_seen text.now ts.items ≡ texts.lexemes text.now tokens.now) }
{
    let mut terminals = Vec::with_capacity(alloc, tokens.len())?;
    for token in tokens {
        terminals.push(terminal(text, token))?;
    }
    Ok(terminals)
}
