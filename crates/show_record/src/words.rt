// The languages of a screen, and the words that stand around the fields on it.

// The two languages.
#[derive(Clone, Copy)]
pub enum Language {
    English,
    Chinese,
}

// A text in English and in Chinese.
#[derive(Clone, Copy)]
pub struct Text(pub &'static str, pub &'static str);

impl Text {
    // The text in a language.
    pub(crate) fn within(self, language: Language) -> &'static str {
        let Text(english, chinese) = self;
        match language {
            Language::English => english,
            Language::Chinese => chinese,
        }
    }
}

// The heads of the columns.
pub const OFFSET: Text = Text("offset", "偏移");

pub const LENGTH: Text = Text("length", "长度");

pub const NAME: Text = Text("field", "字段");

pub const VALUE: Text = Text("value", "内容");

// What is said of a field that has no bytes of its own.
pub const ABSENT: Text = Text("absent", "无");

pub const NO_BYTES: Text = Text("no bytes", "无字节");

pub const EMPTY_LIST: Text = Text("empty list", "空列表");

// What the items of a list are counted by.
pub const ITEM: Text = Text("item", "项");

pub const ITEMS: Text = Text("items", "项");

// Whether an item is critical.
pub const YES: Text = Text("yes", "是");

pub const NO: Text = Text("no", "否");

// What the whole is.
pub const RECORD: Text = Text("signature record", "电子签章数据");
