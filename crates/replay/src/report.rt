// The rows of the report: which one counts a case, and what it prints.
use crate::addition_cases::{function_case, new_case, resource_case};
use crate::image_cases::{Image, damage_case, find_case, image_case, unescape_case};
use crate::number_cases::{
    call_case, category_case, equality_case, literal_case, match_case, text_case,
};
use std::io;
use vectors::counts::Counts;
use vectors::{byte, differs};

#[derive(Clone, Copy, PartialEq, Eq)]
pub(crate) enum Row {
    Literals,
    Texts,
    Categories,
    Calls,
    Equalities,
    CategoryWords,
    TableCategories,
    Stores,
    Resources,
    Arguments,
    StringLiterals,
    ArgumentsFound,
    DamagedImages,
    Sheets,
    DamagedSheets,
    NewBundles,
    ResourceAdditions,
    FunctionAdditions,
    Unknown,
}

impl Row {
    // The row of a case, by its operation; damaged sheet images, of the kind 18, have one of their own.
    fn of(case: &[u8]) -> Row {
        match byte(case, 0) {
            1 => Row::Literals,
            2 => Row::Texts,
            3 => Row::Categories,
            4 => Row::Calls,
            5 => Row::Equalities,
            6 => Row::CategoryWords,
            20 => Row::Stores,
            21 => Row::Resources,
            22 => Row::Arguments,
            23 => Row::StringLiterals,
            24 => Row::ArgumentsFound,
            25 if byte(case, 1) == 18 => Row::DamagedSheets,
            25 => Row::DamagedImages,
            30 => Row::NewBundles,
            31 => Row::ResourceAdditions,
            32 => Row::FunctionAdditions,
            51 => Row::Sheets,
            _ => Row::Unknown,
        }
    }

    // How many things a case of the row compares, and how many of them differ: one, but a damage case stands for many images.
    fn compare(self, case: &[u8]) -> (u64, u64) {
        let same = match self {
            Row::Literals => literal_case(case),
            Row::Texts => text_case(case),
            Row::Categories | Row::TableCategories => category_case(case),
            Row::Calls => call_case(case),
            Row::Equalities => equality_case(case),
            Row::CategoryWords => match_case(case),
            Row::Stores => image_case(Image::Store, case),
            Row::Resources => image_case(Image::Resource, case),
            Row::Arguments => image_case(Image::Arguments, case),
            Row::Sheets => image_case(Image::Sheet, case),
            Row::StringLiterals => unescape_case(case),
            Row::ArgumentsFound => find_case(case),
            Row::NewBundles => new_case(case),
            Row::ResourceAdditions => resource_case(case),
            Row::FunctionAdditions => function_case(case),
            Row::DamagedImages | Row::DamagedSheets => return damage_case(case),
            Row::Unknown => false,
        };
        (1, differs(same))
    }
}

// How many things each row compared, and how many of them differ.
#[derive(Clone, Copy)]
pub(crate) struct Report {
    compared: Counts<19>,
    differ: Counts<19>,
}

impl Report {
    pub(crate) fn new() -> Self {
        Report {
            compared: Counts::new(),
            differ: Counts::new(),
        }
    }

    // Compares a case, and counts it; one of categories in a row of the file's.
    pub(crate) fn replay(&mut self, case: &[u8], categories: Row) {
        let row = match Row::of(case) {
            Row::Categories => categories,
            row => row,
        };
        let (compared, differ) = row.compare(case);
        self.compared.add(row as usize, compared);
        self.differ.add(row as usize, differ);
    }

    pub(crate) fn show(&self, rt: &impl Print) -> io::Result<()> {
        for (row, words) in [
            (Row::Literals, "literals"),
            (Row::Texts, "number texts"),
            (Row::Categories, "categories"),
            (Row::Calls, "calls of NUMBER"),
            (Row::Equalities, "equalities"),
            (Row::CategoryWords, "category words"),
            (Row::TableCategories, "categories by the table"),
            (Row::Stores, "stores"),
            (Row::Resources, "resource images"),
            (Row::Arguments, "arguments images"),
            (Row::StringLiterals, "string literals"),
            (Row::ArgumentsFound, "arguments looked for"),
            (Row::DamagedImages, "damaged images"),
            (Row::Sheets, "sheet images"),
            (Row::DamagedSheets, "damaged sheet images"),
            (Row::NewBundles, "new bundles"),
            (Row::ResourceAdditions, "resource additions"),
            (Row::FunctionAdditions, "function additions"),
            (Row::Unknown, "unknown"),
        ] {
            let compared = self.compared.at(row as usize);
            let differ = self.differ.at(row as usize);
            println!(rt; "{compared} {words}, {differ} differ")?;
        }
        Ok(())
    }
}
