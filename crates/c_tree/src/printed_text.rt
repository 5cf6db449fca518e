//! The preamble of a printed text.

ghost use Rattle.std.specs.Prelude.{◌≡◌};
ghost use Rattle.c_tree.specs.Grammar.Tokens.{is_printed as begins_so};
ghost use Rattle.c_tree.specs.Layout as layout;

const PREAMBLE: &[u8] = b"#include <stdint.h>\n\
#include <stdlib.h>\n\
static inline uint64_t umin(uint64_t a, uint64_t b) { return a < b ? a : b; }\n\
static inline uint64_t umax(uint64_t a, uint64_t b) { return a < b ? b : a; }\n\
static inline int64_t bal_min(int64_t a, int64_t b) { return a < b ? a : b; }\n\
static inline int64_t bal_max(int64_t a, int64_t b) { return a < b ? b : a; }\n\
static inline unsigned __int128 bal_wide(uint64_t h, uint64_t l) { return (unsigned __int128)h << 64 | l; }\n";

/// The functions that a printed text calls, with which it begins.
pub fn preamble() -> &'static [u8]
    ensures { result.now ≡ layout.preamble }
{
    PREAMBLE
}

/// Whether the text begins with the preamble, byte for byte, and so is a printed text.
pub fn is_printed(text: &[u8]) -> bool
    ensures { result ≡ begins_so text.now }
{
    text.starts_with(preamble())
}
